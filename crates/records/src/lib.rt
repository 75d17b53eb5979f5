// The rules of the six tables' records, over records where they lie: at a place of a packet, of an image or of the lent state.
// A table is known by its number, 0 to 5. Slots from a place on are n slots of the table's record size, and slot j is in use if bit j of a
// word is set: a table of the lent state has its occupancy word and 32 slots, a list of n records the word of n ones.
#![tactic(auto)]

ghost use Rattle.std.specs.Prelude.{◌≡◌, ◌+◌, ◌-◌, ◌*◌, ◌^◌, ◌≤◌, ◌<◌, ◌&&◌, map, length, take};
ghost use Rattle.model.specs.declared.Hardware.{Hardware};
ghost use Rattle.model.specs.Octets.{all_zero};
ghost use Rattle.model.specs.Reasons.{passes};
ghost use Rattle.model.specs.Tables as Tables;
ghost use Rattle.model.specs.Tables.{rule_at};
ghost use Rattle.octets.specs.Parts.{part};
ghost use Rattle.records.specs.Slots.{free_zero, records_at};
ghost use Rattle.records.specs.Marks.{Checked, Doubled, Marked};
ghost use Rattle.records.specs.Identities.{identity_of, same_identity, apart};

mod marks;

// What no two records of a table may share, of up to 16 octets, as two words: the first eight octets and those behind, low octet first.
#[derive(Clone, Copy, PartialEq)]
pub struct Identity {
    pub low: u64,
    pub high: u64,
}

// The record size of table k.
pub fn size_of(k: usize) -> usize
    requires { k < 6 }
    ensures { result ≡ (rule_at k).size }
{
    match k {
        0 => 17,
        1 => 25,
        2 => 36,
        3 => 23,
        4 => 7,
        _ => 8,
    }
}

// A UUID with its hint: the UUID is not zero.
fn uuid_ok(s: &[u8], at: usize) -> bool
    requires { at + 17 ≤ length s.now }
    ensures { result ≡ passes ((Tables.uuid_rule).checks (part s.now at 17)) }
{
    octets::u64_at(s, at) != 0 || octets::u64_at(s, at + 8) != 0
}

// A link key: a BR/EDR address, and a key type of at most 8.
fn link_key_ok(s: &[u8], at: usize) -> bool
    requires { at + 25 ≤ length s.now }
    ensures { result ≡ passes ((Tables.link_key_rule).checks (part s.now at 25)) }
{
    s[at + 6] == 0 && s[at + 7] <= 8
}

// An address of a long term or identity key: LE Public, or LE Random and then a static random one.
fn le_address_ok(s: &[u8], at: usize) -> bool
    requires { at + 7 ≤ length s.now }
    ensures { result ≡ passes (Tables.le_address_checks (part s.now at 7)) }
{
    s[at + 6] == 1 || s[at + 6] == 2 && rules::static_random(s, at)
}

// A long term key: an LE address, a key type of at most 4, Master as a flag, a key size from 7 to 16.
fn long_term_key_ok(s: &[u8], at: usize) -> bool
    requires { at + 36 ≤ length s.now }
    ensures { result ≡ passes ((Tables.long_term_key_rule).checks (part s.now at 36)) }
{
    le_address_ok(s, at)
        && (s[at + 7] <= 4 && (s[at + 8] <= 1 && (7 <= s[at + 9] && s[at + 9] <= 16)))
}

// An identity resolving key: its address.
fn identity_key_ok(s: &[u8], at: usize) -> bool
    requires { at + 23 ≤ length s.now }
    ensures { result ≡ passes ((Tables.identity_key_rule).checks (part s.now at 23)) }
{
    le_address_ok(s, at)
}

// Whether the address at a place is zero.
fn address_zero(s: &[u8], at: usize) -> bool
    requires { at + 6 ≤ length s.now }
    ensures { result ≡ all_zero (part s.now at 6) }
{
    octets::u32_at(s, at) == 0 && octets::u16_at(s, at + 4) == 0
}

// A blocked device: any address but zero, of one of the three types.
fn blocked_ok(s: &[u8], at: usize) -> bool
    requires { at + 7 ≤ length s.now }
    ensures { result ≡ passes ((Tables.blocked_rule).checks (part s.now at 7)) }
{
    !address_zero(s, at) && s[at + 6] <= 2
}

// A device: the same, with one of three actions; a BR/EDR device has no other than 1.
fn device_ok(s: &[u8], at: usize) -> bool
    requires { at + 8 ≤ length s.now }
    ensures { result ≡ passes ((Tables.device_rule).checks (part s.now at 8)) }
{
    !address_zero(s, at)
        && (s[at + 6] <= 2 && (s[at + 7] <= 2 && (s[at + 6] != 0 || s[at + 7] == 1)))
}

// Whether the record at a place keeps the rule of table k.
pub fn record_ok(k: usize, s: &[u8], at: usize) -> bool
    requires { (k < 6) × (at + (rule_at k).size ≤ length s.now) }
    ensures { result ≡ passes ((rule_at k).checks (part s.now at (rule_at k).size)) }
{
    match k {
        0 => uuid_ok(s, at),
        1 => link_key_ok(s, at),
        2 => long_term_key_ok(s, at),
        3 => identity_key_ok(s, at),
        4 => blocked_ok(s, at),
        _ => device_ok(s, at),
    }
}

// Whether the slot of table k at a place is zero, by words. The tables share their first words: a `match` on the table would repeat those tests in each arm.
pub fn slot_zero(k: usize, s: &[u8], at: usize) -> bool
    requires { (k < 6) × (at + (rule_at k).size ≤ length s.now) }
    ensures { result ≡ all_zero (part s.now at (rule_at k).size) }
{
    if k == 4 {
        return octets::u56_at(s, at) == 0;
    }
    if octets::u64_at(s, at) != 0 {
        return false;
    }
    if k == 5 {
        return true;
    }
    if octets::u64_at(s, at + 8) != 0 {
        return false;
    }
    if k == 0 {
        return s[at + 16] == 0;
    }
    if k == 3 {
        return octets::u56_at(s, at + 16) == 0;
    }
    if octets::u64_at(s, at + 16) != 0 {
        return false;
    }
    if k == 1 {
        return s[at + 24] == 0;
    }
    if octets::u64_at(s, at + 24) != 0 {
        return false;
    }
    octets::u32_at(s, at + 32) == 0
}

// The identity of the record of table k at a place: a UUID, or an address with its type, of long term keys behind the octet Master.
pub fn identity_at(k: usize, s: &[u8], at: usize) -> Identity
    requires { (k < 6) × (at + (rule_at k).size ≤ length s.now) }
    ensures { result ≡ identity_of k (part s.now at (rule_at k).size) }
{
    match k {
        0 => Identity {
            low: octets::u64_at(s, at),
            high: octets::u64_at(s, at + 8),
        },
        2 => Identity {
            low: u64::from(s[at + 8]) + 256 * octets::u56_at(s, at),
            high: 0,
        },
        _ => Identity {
            low: octets::u56_at(s, at),
            high: 0,
        },
    }
}

// Whether two identities are one. It stays beside the derived `==`, which is no plainer there: `reading::repeats` and `faults::first_pair` are proved by this clause, in the words of the rules.
pub fn same_identity(a: Identity, b: Identity) -> bool
    ensures { result ≡ same_identity a b }
{
    a == b
}

// Slots and repeats

// Whether of the n slots of table k from a place on the free ones are zero and each record in the others keeps its own rule. If so, the
// marks of the records are left, in slot order, and how many there are is told.
fn slots_ok(
    k: usize,
    s: &[u8],
    place: usize,
    n: usize,
    w: u64,
    marks: &mut [u32; 64],
) -> Option<usize>
    requires { (k < 6) × (n ≤ 32) × (place + (rule_at k).size * n ≤ length s.now) × Doubled marks.old }
    ensures { Checked k s.now place n w result marks.new }
{
    let size = size_of(k);
    let mut at = place;
    let mut word = w;
    let mut found = 0;
    for slot in 0..n {
        if word % 2 == 1 {
            if !record_ok(k, s, at) {
                return None;
            }
            marks::put_mark(marks, found, marks::mark_of(identity_at(k, s, at)));
            found += 1;
        } else if !slot_zero(k, s, at) {
            return None;
        }
        at += size;
        word /= 2;
    }
    Some(found)
}

// The same, with the table's number known where the loop begins: the compiler makes a loop of its own for each table.
fn table_slots_ok(
    k: usize,
    s: &[u8],
    place: usize,
    n: usize,
    w: u64,
    marks: &mut [u32; 64],
) -> Option<usize>
    requires { (k < 6) × (n ≤ 32) × (place + (rule_at k).size * n ≤ length s.now) × Doubled marks.old }
    ensures { Checked k s.now place n w result marks.new }
{
    match k {
        0 => slots_ok(0, s, place, n, w, marks),
        1 => slots_ok(1, s, place, n, w, marks),
        2 => slots_ok(2, s, place, n, w, marks),
        3 => slots_ok(3, s, place, n, w, marks),
        4 => slots_ok(4, s, place, n, w, marks),
        _ => slots_ok(5, s, place, n, w, marks),
    }
}

// Puts the identities of the records among the n slots of table k from a place on one behind the other, and counts them.
fn collect(k: usize, s: &[u8], place: usize, n: usize, w: u64, ids: &mut [Identity; 32]) -> usize
    requires { (k < 6) × (n ≤ 32) × (place + (rule_at k).size * n ≤ length s.now) × (length ids.old ≡ 32) }
    ensures { (result ≤ 32) × (length ids.new ≡ 32)
        × (take result ids.new ≡ map (identity_of k) (records_at s.now (rule_at k).size place n w)) }
{
    let size = size_of(k);
    let mut at = place;
    let mut word = w;
    let mut found = 0;
    for slot in 0..n {
        if word % 2 == 1 {
            ids[found] = identity_at(k, s, at);
            found += 1;
        }
        at += size;
        word /= 2;
    }
    found
}

// The marks of identities.
fn marks_of(ids: &[Identity]) -> [u32; 64]
    requires { length ids.now ≤ 32 }
    ensures { Marked ids.now (length ids.now) result }
{
    let mut marks = marks::no_marks();
    for (i, d) in ids.iter().enumerate() {
        marks::put_mark(&mut marks, i, marks::mark_of(*d));
    }
    marks
}

// Whether no two identities are the same, each compared with those behind it.
fn all_apart(ids: &[Identity]) -> bool
    ensures { result ≡ apart ids.now }
{
    for i in 0..ids.len() {
        if ids[i + 1..].contains(&ids[i]) {
            return false;
        }
    }
    true
}

// Whether no two of at most 32 identities are the same. They are compared only where two marks are the same.
pub fn distinct_identities(ids: &[Identity]) -> bool
    requires { length ids.now ≤ 32 }
    ensures { result ≡ apart ids.now }
{
    !marks::meet(&marks_of(ids), ids.len()) || all_apart(ids)
}

// Whether no two records among the n slots of table k from a place on have one identity.
pub fn distinct(k: usize, s: &[u8], place: usize, n: usize, w: u64) -> bool
    requires { (k < 6) × (n ≤ 32) × (place + (rule_at k).size * n ≤ length s.now) }
    ensures { result ≡ Tables.distinct (map (rule_at k).key (records_at s.now (rule_at k).size place n w)) }
{
    let mut ids = [Identity { low: 0, high: 0 }; 32];
    let found = collect(k, s, place, n, w, &mut ids);
    distinct_identities(&ids[..found])
}

// Whether of the n slots of table k from a place on the free ones are zero and the records keep the table's rule: each its own, and none is
// repeated. One walk looks at the slots and marks the records; identities are compared only where two marks are the same.
pub fn slots_keep_rules(k: usize, s: &[u8], place: usize, n: usize, w: u64) -> bool
    requires { (k < 6) × (n ≤ 32) × (place + (rule_at k).size * n ≤ length s.now) }
    ensures { result ≡ free_zero s.now (rule_at k).size place n w
        && Tables.records_ok (rule_at k) (records_at s.now (rule_at k).size place n w) }
{
    let mut marks = marks::no_marks();
    let Some(found) = table_slots_ok(k, s, place, n, w, &mut marks) else {
        return false;
    };
    !marks::meet(&marks, found) || distinct(k, s, place, n, w)
}

// Whether the n records of table k in a list from a place on keep the table's rule. The word is that of a list: no slot is free.
pub fn keeps_rule(k: usize, s: &[u8], place: usize, n: usize, w: u64) -> bool
    requires { (k < 6) × (n ≤ 32) × (place + (rule_at k).size * n ≤ length s.now) × (w ≡ 2 ^ n - 1) }
    ensures { result ≡ Tables.records_ok (rule_at k) (records_at s.now (rule_at k).size place n w) }
{
    n == 0 || slots_keep_rules(k, s, place, n, w)
}

// The word of a list of n records: all n slots are in use.
pub fn list_word(n: usize) -> u64
    requires { n ≤ 32 }
    ensures { result ≡ 2 ^ n - 1 }
{
    (1 << n) - 1
}

// Whether a controller with these supported settings may have records in table k.
pub fn supports(k: usize, supported: u32) -> bool
    requires { k < 6 }
    ensures { (f : Hardware) → f.supported ≡ supported → result ≡ passes ((rule_at k).support f) }
{
    match k {
        1 => supported / 128 % 2 == 1,
        2 => supported / 512 % 2 == 1,
        3 => supported / 512 % 2 == 1,
        _ => true,
    }
}
