// A list of key records in a packet, gone through with one reader: the packet that was lent, and how far it is read. `next` hands out a key by
// value and leaves the reader behind it. `reader_at`, `next` and `read_keys` have the reader; what a key is, and all that is decided, is in the other
// functions, over plain values.
#![tactic(auto)]

ghost use Rattle.std.specs.Prelude.{◌≡◌, ◌+◌, ◌*◌, ◌≤◌, ◌<◌, map, length, drop, set};
ghost use Rattle.model.specs.Reasons.{passes};
ghost use Rattle.model.specs.Tables.{chop};
ghost use Rattle.model.specs.Tables.{rule_at};
ghost use Rattle.lists.specs.Lists.{KeysRead, key_at, key_identity, value_checks};
ghost use Rattle.records.specs.Identities.{apart};

use records::Identity;

// A place in a list: the caller's packet, and where the next record begins. `chunks_exact` over the list's part of the packet would be no plainer: what the
// records are is said of places in the packet, as in `records`.
#[derive(Clone, Copy)]
pub struct Reader<'a> {
    pub packet: &'a [u8],
    pub at: usize,
}

// One key record as the reader hands it out: its identity, and whether it keeps the rule of its table.
#[derive(Clone, Copy)]
pub struct Key {
    pub identity: Identity,
    pub keeps_rule: bool,
}

// The record of table k at a place of a packet.
fn key_at(packet: &[u8], at: usize, k: usize) -> Key
    requires { (k < 6) × (at + (rule_at k).size ≤ length packet.now) }
    ensures { result ≡ key_at packet.now at k }
{
    let identity = records::identity_at(k, packet, at);
    let keeps_rule = records::record_ok(k, packet, at);
    Key {
        identity,
        keeps_rule,
    }
}

// A reader of a packet, at a place.
fn reader_at<'a>(packet: &'a [u8], at: usize) -> Reader<'a>
    ensures { (result.packet ≡ packet.entry) × (result.at ≡ at) }
{
    Reader { packet, at }
}

// The record of table k where the reader stands; the reader is left behind it.
fn next<'s, 'a>(r: &'s mut Reader<'a>, k: usize) -> Key
    requires { (k < 6) × (r.old.at + (rule_at k).size ≤ length r.old.packet.now) }
    ensures { (result ≡ key_at r.old.packet.now r.old.at k) × (r.new.packet ≡ r.old.packet)
        × (r.new.at ≡ r.old.at + (rule_at k).size) }
{
    let at = r.at;
    r.at = at + records::size_of(k);
    key_at(r.packet, at, k)
}

// Keeps the identity of key number i, and tells whether the key keeps its rule.
fn note(key: Key, i: usize, low: &mut [u64; 32]) -> bool
    requires { i < 32 }
    ensures { (result ≡ key.keeps_rule) × (low.new ≡ set low.old i key.identity.low) }
{
    low[i] = key.identity.low;
    key.keeps_rule
}

// Goes through the n records of table k from a place on, with one reader: whether each keeps its rule. It ends at the first that does not; else it
// leaves the words of their identities, of which there are n: memory is fixed, and the array has room for the longest list.
fn read_keys(k: usize, packet: &[u8], from: usize, n: usize, low: &mut [u64; 32]) -> bool
    requires { (k < 6) × (n ≤ 32) × (from + (rule_at k).size * n ≤ length packet.now) × (length low.old ≡ 32) }
    ensures { KeysRead k (chop (rule_at k).size n (drop from packet.now)) result low.new }
{
    let mut reader = reader_at(packet, from);
    for i in 0..n {
        let key = next(&mut reader, k);
        if !note(key, i, low) {
            return false;
        }
    }
    true
}

// Whether no two words are the same, each compared with those behind it.
fn all_apart(words: &[u64]) -> bool
    ensures { result ≡ apart (map key_identity words.now) }
{
    for i in 0..words.len() {
        if words[i + 1..].contains(&words[i]) {
            return false;
        }
    }
    true
}

// Whether every record of a list of keys keeps the rule of table k and none is repeated: the whole list is checked before any octet is stored.
pub fn list_ok(k: usize, packet: &[u8], from: usize, n: usize) -> bool
    requires { (0 < k) × (k < 6) × (n ≤ 32) × (from + (rule_at k).size * n ≤ length packet.now) }
    ensures { result ≡ passes (value_checks (rule_at k) (chop (rule_at k).size n (drop from packet.now))) }
{
    let mut low = [0; 32];
    read_keys(k, packet, from, n, &mut low) && all_apart(&low[..n])
}
