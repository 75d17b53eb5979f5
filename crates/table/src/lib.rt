// Tables of 32 slots where they lie in lent octets: an occupancy word of four octets, then the slots, of any record size.
#![tactic(auto)]

ghost use Rattle.std.specs.Prelude.{◌≡◌, ℕ, ◌+◌, ◌*◌, ◌≤◌, ◌<◌, length, drop, set, replicate};
ghost use Rattle.std.proofs.Math.Option.{none, some};
ghost use Rattle.model.specs.Tables.{entries, begins, freed, loaded, chop, free};
ghost use Rattle.model.specs.Layout.{region};
ghost use Rattle.model.specs.LookUp.{look_up};
ghost use Rattle.octets.specs.Parts.{write_at};
ghost use Rattle.table.specs.Slots.{Canonical, IsNext, IsSlot, first_at, joined_by_or, table_at};

use model::LookUp;

// How many slots are in use: the ones of the occupancy word.
pub fn used(s: &[u8], at: usize) -> u32
    requires { at + 4 ≤ length s.now }
    ensures { ((size : ℕ) → result ≡ length (entries (table_at s.now at size))) × (result ≤ 32) }
{
    (octets::u32_at(s, at) as u32).count_ones()
}

// The lowest free slot, if there is one: the trailing zeros of the word's complement.
pub fn free_slot(s: &[u8], at: usize) -> Option<usize>
    requires { at + 4 ≤ length s.now }
    ensures { (size : ℕ) → IsSlot result (free (table_at s.now at size)) }
{
    let w = octets::u32_at(s, at) as u32;
    if w == 0xFFFFFFFF {
        return None;
    }
    Some((!w).trailing_zeros() as usize)
}

// The first slot from k on that is in use, if there is one. Records are walked in slot order by it.
pub fn next_used(s: &[u8], at: usize, k: usize) -> Option<usize>
    requires { (at + 4 ≤ length s.now) × (k ≤ 32) }
    ensures { IsNext s.now at k result }
{
    let w = octets::u32_at(s, at) >> k;
    if w == 0 {
        return None;
    }
    Some(k + (w.trailing_zeros() as usize))
}

// Where the first record that begins with the key stands, and how many slots are walked to know it. With each used slot that is looked at, from the lowest
// up, its one is taken away from a copy of the occupancy word; the walk ends where none is left. Where no record is found the slot stays the number 32, not an
// option: `hub_look_up` hands it to C.
pub fn look_up(s: &[u8], at: usize, size: usize, key: &[u8]) -> LookUp
    requires { (at + (4 + size * 32) ≤ length s.now) × (length key.now ≤ size) }
    ensures { result ≡ look_up (begins (length key.now) key.now) (table_at s.now at size) }
{
    let mut left = octets::u32_at(s, at);
    let mut walked: usize = 0;
    while 0 < left {
        let slot = left.trailing_zeros() as usize;
        if octets::same_key(key, 0, s, at + (4 + size * slot), key.len()) {
            return LookUp {
                slot,
                walked: slot + 1,
            };
        }
        left &= left - 1;
        walked = slot + 1;
    }
    LookUp { slot: 32, walked }
}

// The slot that the look-up of the first n octets of the key tells: that of the first record which has them, if there is one.
pub fn find(s: &[u8], at: usize, size: usize, key: &[u8], n: usize) -> Option<usize>
    requires { (at + (4 + size * 32) ≤ length s.now) × (n ≤ size) × (n ≤ length key.now) }
    ensures { IsSlot result (first_at (begins n key.now) (table_at s.now at size)) }
{
    let slot = look_up(s, at, size, &key[..n]).slot;
    if slot < 32 { Some(slot) } else { None }
}

// The octet at `place` of every record, joined by or.
pub fn or_octets(s: &[u8], at: usize, size: usize, place: usize) -> u8
    requires { (at + (4 + size * 32) ≤ length s.now) × (place < size) }
    ensures { result ≡ joined_by_or place (entries (table_at s.now at size)) }
{
    let mut hints: u8 = 0;
    let mut from = 0;
    while let Some(slot) = next_used(s, at, from) {
        hints |= s[at + (4 + size * slot) + place];
        from = slot + 1;
    }
    hints
}

// Stores a record in slot k, free or in use, and marks the slot as used.
pub fn store(s: &mut [u8], at: usize, size: usize, k: usize, rec: &[u8])
    requires { (at + (4 + size * 32) ≤ length s.old) × Canonical s.old at size × (k < 32) × (length rec.now ≡ size) }
    ensures { s.new ≡ write_at s.old at (region size (set (table_at s.old at size) k (some rec.now))) }
{
    let w = octets::u32_at(s, at) as u32;
    let bit: u32 = 1 << k;
    octets::copy_into(s, at + (4 + size * k), rec);
    octets::put32(s, at, u64::from(w | bit));
}

// Frees slot k: its octets are zero again, and it is marked as free.
fn release(s: &mut [u8], at: usize, size: usize, k: usize)
    requires { (at + (4 + size * 32) ≤ length s.old) × Canonical s.old at size × (k < 32) }
    ensures { s.new ≡ write_at s.old at (region size (set (table_at s.old at size) k none)) }
{
    let w = octets::u32_at(s, at) as u32;
    let mask: u32 = !(1 << k);
    octets::zero_fill(s, at + (4 + size * k), size);
    octets::put32(s, at, u64::from(w & mask));
}

// Frees every slot whose record has the first n octets of the key: one look-up for each, and one that finds none.
pub fn release_matching(s: &mut [u8], at: usize, size: usize, key: &[u8], n: usize)
    requires { (at + (4 + size * 32) ≤ length s.old) × Canonical s.old at size × (n ≤ size) × (n ≤ length key.now) }
    ensures { s.new ≡ write_at s.old at (region size (freed (begins n key.now) (table_at s.old at size))) }
{
    while let Some(slot) = find(s, at, size, key, n) {
        release(s, at, size, slot);
    }
}

// Frees every slot.
pub fn release_all(s: &mut [u8], at: usize, size: usize)
    requires { at + (4 + size * 32) ≤ length s.old }
    ensures { s.new ≡ write_at s.old at (region size (replicate 32 none)) }
{
    octets::zero_fill(s, at, 4 + size * 32);
}

// Loads the n records that lie in src from a place on into the first n slots, in their order: what the table held before is gone.
// The word is made in 64 bits, where n = 32 is no case of its own.
pub fn load(s: &mut [u8], at: usize, size: usize, src: &[u8], from: usize, n: usize)
    requires { (at + (4 + size * 32) ≤ length s.old) × (n ≤ 32) × (from + size * n ≤ length src.now) }
    ensures { s.new ≡ write_at s.old at (region size (loaded (chop size n (drop from src.now)))) }
{
    let end: u64 = 1 << n;
    octets::put32(s, at, end - 1);
    octets::copy_into(s, at + 4, &src[from..from + size * n]);
    octets::zero_fill(s, at + (4 + size * n), size * (32 - n));
}
