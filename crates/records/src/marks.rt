// Marks: numbers of 32 bits, one for each identity, by which records are told apart. 32 of them are held twice over, one row behind the
// other, so that every pair is compared in straight runs of 32, whatever the octets are.
ghost use Rattle.std.specs.Prelude.{◌≡◌, ◌≤◌, ◌<◌};
ghost use Rattle.records.specs.Marks.{mark_of, Doubled, meet_at, meet_any, reach_of, with_mark};

use crate::Identity;

// The mark of an identity, a number of 32 bits. Identities that differ in one run of four octets only have two marks: each factor is odd.
pub fn mark_of(d: Identity) -> u32
    ensures { result ≡ mark_of d }
{
    let a = d.low % 4294967296;
    let b = d.low / 4294967296;
    let c = d.high % 4294967296;
    let e = d.high / 4294967296;
    ((a + b * 0x1E3779B1 + c * 0x15EBCA77 + e * 0x12B2AE3D) % 4294967296) as u32
}

// Stores mark i in both halves of the marks.
pub fn put_mark(marks: &mut [u32; 64], i: usize, m: u32)
    requires { i < 32 }
    ensures { marks.new ≡ with_mark marks.old i m }
{
    marks[i] = m;
    marks[i + 32] = m;
}

// The marks of no records: 32 numbers that differ.
pub fn no_marks() -> [u32; 64]
    ensures { Doubled result }
{
    let mut marks = [0; 64];
    for i in 0..32 {
        put_mark(&mut marks, i, i as u32);
    }
    marks
}

// Whether two of the 32 marks that stand d apart, in the round, are the same.
fn meet_at(marks: &[u32; 64], d: usize) -> bool
    requires { d ≤ 32 }
    ensures { result ≡ meet_at marks.now d }
{
    // A flag, and no `any`: with no way out of the loop the compiler compares a row of marks at once (docs/DECISIONS.md, 60).
    let mut met = false;
    for i in 0..32 {
        if marks[i] == marks[i + d] {
            met = true;
        }
    }
    met
}

// The distance that two of the first n marks never have, nor any beyond it: in the round of 32 no two stand more than 16 apart.
fn reach(n: usize) -> usize
    ensures { (result ≡ reach_of n) × (result ≤ 17) }
{
    n.min(17)
}

// Whether two of the first n marks are the same. Marks behind those are compared too, and differ.
pub fn meet(marks: &[u32; 64], n: usize) -> bool
    ensures { result ≡ meet_any marks.now n }
{
    for d in 1..reach(n) {
        if meet_at(marks, d) {
            return true;
        }
    }
    false
}
