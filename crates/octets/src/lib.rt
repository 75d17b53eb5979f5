// Reading and writing lent octets, in the model's words.
#![tactic(auto)]

ghost use Rattle.std.specs.Prelude.{◌≡◌, ◌+◌, ◌*◌, ◌≤◌, ◌<◌, ◌∷◌, [], length, replicate};
ghost use Rattle.model.specs.Octets.{le16, le32, be32, u16, u32, number, all_zero, same, used_part};
ghost use Rattle.octets.specs.Parts.{part, write_at};
ghost use Rattle.octets.specs.Numbers.{little};

// Numbers: one function for each width and order, as the library has one method for each. With the width as a parameter a contract could not say `u16`,
// `u32` or `number`, the model's words for them.

// The number in the two octets from the place `at` on, low octet first.
pub fn u16_at(s: &[u8], at: usize) -> u64
    requires { at + 2 ≤ length s.now }
    ensures { (result ≡ u16 s.now at) × (result < 65536) }
{
    u64::from(u16::from_le_bytes([s[at], s[at + 1]]))
}

// The number in the four octets from the place `at` on, low octet first.
pub fn u32_at(s: &[u8], at: usize) -> u64
    requires { at + 4 ≤ length s.now }
    ensures { (result ≡ u32 s.now at) × (result < 4294967296) }
{
    u64::from(u32::from_le_bytes([s[at], s[at + 1], s[at + 2], s[at + 3]]))
}

// The number in the seven octets from the place `at` on, low octet first, as an address and its type spell it.
pub fn u56_at(s: &[u8], at: usize) -> u64
    requires { at + 7 ≤ length s.now }
    ensures { (result ≡ little (part s.now at 7)) × (result < 72057594037927936) }
{
    u32_at(s, at) + 4294967296 * (u16_at(s, at + 4) + 65536 * u64::from(s[at + 6]))
}

// The number in the eight octets from the place `at` on, low octet first.
pub fn u64_at(s: &[u8], at: usize) -> u64
    requires { at + 8 ≤ length s.now }
    ensures { result ≡ little (part s.now at 8) }
{
    u32_at(s, at) + 4294967296 * u32_at(s, at + 4)
}

// The number in the two octets from the place `at` on, high octet first.
pub fn be16_at(s: &[u8], at: usize) -> u64
    requires { at + 2 ≤ length s.now }
    ensures { (result ≡ number 0 (part s.now at 2)) × (result < 65536) }
{
    u64::from(u16::from_be_bytes([s[at], s[at + 1]]))
}

// The number in the four octets from the place `at` on, high octet first.
pub fn be32_at(s: &[u8], at: usize) -> u64
    requires { at + 4 ≤ length s.now }
    ensures { (result ≡ number 0 (part s.now at 4)) × (result < 4294967296) }
{
    u64::from(u32::from_be_bytes([s[at], s[at + 1], s[at + 2], s[at + 3]]))
}

// The six octets from the place `at` on, as an address has them.
pub fn six(s: &[u8], at: usize) -> [u8; 6]
    requires { at + 6 ≤ length s.now }
    ensures { result ≡ part s.now at 6 }
{
    [s[at], s[at + 1], s[at + 2], s[at + 3], s[at + 4], s[at + 5]]
}

// Writes the octet v at the place `at`.
pub fn put8(s: &mut [u8], at: usize, v: u8)
    requires { at + 1 ≤ length s.old }
    ensures { s.new ≡ write_at s.old at (v ∷ []) }
{
    s[at] = v;
}

// Writes v in two octets from the place `at` on, low octet first.
pub fn put16(s: &mut [u8], at: usize, v: u64)
    requires { at + 2 ≤ length s.old }
    ensures { s.new ≡ write_at s.old at (le16 v) }
{
    copy_into(s, at, &((v % 65536) as u16).to_le_bytes());
}

// Writes v in four octets from the place `at` on, low octet first.
pub fn put32(s: &mut [u8], at: usize, v: u64)
    requires { at + 4 ≤ length s.old }
    ensures { s.new ≡ write_at s.old at (le32 v) }
{
    copy_into(s, at, &((v % 4294967296) as u32).to_le_bytes());
}

// Writes v in four octets from the place `at` on, high octet first.
pub fn put_be32(s: &mut [u8], at: usize, v: u64)
    requires { at + 4 ≤ length s.old }
    ensures { s.new ≡ write_at s.old at (be32 v) }
{
    copy_into(s, at, &((v % 4294967296) as u32).to_be_bytes());
}

// Writes src from the place `at` on.
pub fn copy_into(s: &mut [u8], at: usize, src: &[u8])
    requires { at + length src.now ≤ length s.old }
    ensures { s.new ≡ write_at s.old at src.now }
{
    // `copy_from_slice` would need memmove from outside the library, which may need memcpy and memset alone.
    for i in 0..src.len() {
        s[at + i] = src[i];
    }
}

// Writes n zeros from the place `at` on.
pub fn zero_fill(s: &mut [u8], at: usize, n: usize)
    requires { at + n ≤ length s.old }
    ensures { s.new ≡ write_at s.old at (replicate n 0) }
{
    s[at..at + n].fill(0);
}

// Whether all octets are zero.
pub fn all_zero(a: &[u8]) -> bool
    ensures { result ≡ all_zero a.now }
{
    a.iter().all(|x| *x == 0)
}

// Whether the n octets of a from i on are those of b from j on.
pub fn same_part(a: &[u8], i: usize, b: &[u8], j: usize, n: usize) -> bool
    requires { (i + n ≤ length a.now) × (j + n ≤ length b.now) }
    ensures { result ≡ same (part a.now i n) (part b.now j n) }
{
    // `==` of the two slices is compiled to a function of its own, with tables, that a look-up would call for each record.
    for k in 0..n {
        if a[i + k] != b[j + k] {
            return false;
        }
    }
    true
}

// The same, as keys are compared: eight octets at a time as a number, and the rest octet by octet.
// `chunks_exact` would be no plainer: it takes a zip of both slices' chunks and a comparison of their remainders.
pub fn same_key(a: &[u8], i: usize, b: &[u8], j: usize, n: usize) -> bool
    requires { (i + n ≤ length a.now) × (j + n ≤ length b.now) }
    ensures { result ≡ same (part a.now i n) (part b.now j n) }
{
    let mut k: usize = 0;
    while 8 <= n - k {
        if u64_at(a, i + k) != u64_at(b, j + k) {
            return false;
        }
        k += 8;
    }
    same_part(a, i + k, b, j + k, n - k)
}

// How many octets the used part of a name has: those before the first zero.
pub fn used_length(name: &[u8]) -> usize
    ensures { result ≡ length (used_part name.now) }
{
    name.iter().position(|x| *x == 0).unwrap_or(name.len())
}

// The used part of a name, as that part of the lent octets: nothing is copied.
pub fn used_part(name: &[u8]) -> &[u8]
    ensures { result.now ≡ used_part name.now }
{
    let n = used_length(name);
    &name[..n]
}
