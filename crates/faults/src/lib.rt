// What is wrong with a list of keys, and where: the count, what stands before it, the records one by one, records that name one device, and
// support, in this order. Octets are counted from the packet's first, whose parameters begin at octet 6; records are counted from 0.
#![tactic(auto, using(crate::proofs::Records::steps), unfolding(why::specs::Findings::first_wrong, crate::specs::Faults::list_fault, crate::specs::Faults::pair_fault, model::specs::Tables::nowhere))]

ghost use Rattle.std.specs.Prelude.{◌≡◌, map, ◌+◌, ◌*◌, ◌≤◌, ◌<◌, length, drop};
ghost use Rattle.model.specs.declared.Place.TheVariants.{InRecord};
ghost use Rattle.model.specs.Octets.{u16};
ghost use Rattle.model.specs.Tables.{chop, first_pair, link_key_rule, long_term_key_rule, rule_at};
ghost use Rattle.model.specs.Immediate.{identity_key_list, link_key_list, list_checks, long_term_key_list, records_of};
ghost use Rattle.model.specs.Tables.{nowhere};
ghost use Rattle.why.specs.Findings.{checked, first_wrong, in_packet};
ghost use Rattle.faults.specs.Faults.{address_fault, list_fault, record_fault, records_fault};

use model::{Hardware, Place, Reason};
use why::Objection;

// One record

// A check of a value in record j, by its octet in the parameters.
fn check_in(j: usize, octet: usize, fails: bool, reason: Reason) -> Result<(), Objection>
    requires { octet < 0x8000000000000000 }
    ensures { result ≡ checked fails reason (InRecord j (6 + octet)) }
{
    why::check(fails, reason, Place::InRecord(j, 6 + octet))
}

// Record j of a list, a link key, at a place of the parameters.
fn link_key(ps: &[u8], at: usize, j: usize) -> Result<(), Objection>
    requires { at + 25 ≤ length ps.now }
    ensures { result ≡ record_fault link_key_rule ps.now at j }
{
    check_in(j, at + 6, ps[at + 6] != 0, Reason::AddressTypeNotBredr)?;
    check_in(j, at + 7, 8 < ps[at + 7], Reason::KeyTypeAbove8)
}

// The address of record j, of a long term or identity key. A random address that is no static random one clashes with its type, which is the later of the
// two fields: both faults are told there.
fn le_address(ps: &[u8], at: usize, j: usize) -> Result<(), Objection>
    requires { at + 7 ≤ length ps.now }
    ensures { result ≡ address_fault ps.now at j }
{
    let kind = ps[at + 6];
    check_in(
        j,
        at + 6,
        !(kind == 1 || kind == 2),
        Reason::AddressTypeNotLe,
    )?;
    let clash = kind == 2 && !rules::static_random(ps, at);
    check_in(j, at + 6, clash, Reason::AddressNotStaticRandom)
}

// Record j of a list, a long term key.
fn long_term_key(ps: &[u8], at: usize, j: usize) -> Result<(), Objection>
    requires { at + 36 ≤ length ps.now }
    ensures { result ≡ record_fault long_term_key_rule ps.now at j }
{
    le_address(ps, at, j)?;
    check_in(j, at + 7, 4 < ps[at + 7], Reason::KeyTypeAbove4)?;
    check_in(j, at + 8, 1 < ps[at + 8], Reason::MasterAbove1)?;
    let size = ps[at + 9];
    check_in(j, at + 9, size < 7 || 16 < size, Reason::KeySizeNot7To16)
}

// Record j of a list for table k, which is one of the three tables of keys.
fn in_record(k: usize, ps: &[u8], at: usize, j: usize) -> Result<(), Objection>
    requires { (0 < k) × (k < 4) × (at + (rule_at k).size ≤ length ps.now) }
    ensures { result ≡ record_fault (rule_at k) ps.now at j }
{
    match k {
        1 => link_key(ps, at, j),
        2 => long_term_key(ps, at, j),
        _ => le_address(ps, at, j),
    }
}

// A whole list

// The n records of a list for table k from a place on: the first thing that is wrong in one of them.
fn in_records(k: usize, ps: &[u8], from: usize, n: usize) -> Result<(), Objection>
    requires { (0 < k) × (k < 4) × (from + (rule_at k).size * n ≤ length ps.now) }
    ensures { result ≡ records_fault k ps.now from 0 n }
{
    let size = records::size_of(k);
    for j in 0..n {
        in_record(k, ps, from + size * j, j)?;
    }
    Ok(())
}

// The first two records that share an identity, of the n records of a list for table k from a place on: each record is compared with those behind it,
// and both loops are left at the first identity that is repeated.
pub fn first_pair(k: usize, ps: &[u8], from: usize, n: usize) -> Place
    requires { (k < 6) × (from + (rule_at k).size * n ≤ length ps.now) }
    ensures { result ≡ first_pair 0 (map (rule_at k).key (chop (rule_at k).size n (drop from ps.now))) }
{
    let size = records::size_of(k);
    for a in 0..n {
        let mine = records::identity_at(k, ps, from + size * a);
        for b in a + 1..n {
            let other = records::identity_at(k, ps, from + size * b);
            if records::same_identity(mine, other) {
                return Place::Records(a, b);
            }
        }
    }
    Place::Nowhere
}

// Whether no place is named.
fn is_nowhere(p: Place) -> bool
    ensures { result ≡ nowhere p }
{
    matches!(p, Place::Nowhere)
}

// A list for table k, of the right length: its count stands at `at`, `head` is what is wrong before the count, and `support` what is wrong with the
// controller. Of more than 32 records none is looked at.
fn in_list(
    k: usize,
    ps: &[u8],
    at: usize,
    head: Result<(), Objection>,
    support: Result<(), Objection>,
) -> Result<(), Objection>
    requires { (0 < k) × (k < 4) × (at ≤ 1) × (length ps.now ≡ at + 2 + (rule_at k).size * u16 ps.now at) }
    ensures { result ≡ list_fault k ps.now at head support }
{
    let n = octets::u16_at(ps, at) as usize;
    why::check_at(6 + at, 32 < n, Reason::CountAbove32)?;
    head?;
    in_records(k, ps, at + 2, n)?;
    let pair = first_pair(k, ps, at + 2, n);
    why::check(!is_nowhere(pair), Reason::RecordRepeated, pair)?;
    support
}

// The three commands

// 0x0012 Load Link Keys, of the right length: what is wrong with the list.
pub fn link_keys(hardware: Hardware, ps: &[u8]) -> Result<(), Objection>
    requires { length ps.now ≡ 1 + 2 + 25 * u16 ps.now 1 }
    ensures { result ≡ first_wrong (in_packet (list_checks link_key_list hardware ps.now (u16 ps.now 1)
        (records_of link_key_list ps.now))) }
{
    let head = why::check_at(6, 1 < ps[0], Reason::DebugFlagAbove1);
    let bredr = rules::bredr_supported(hardware);
    in_list(
        1,
        ps,
        1,
        head,
        why::check_later(!bredr, Reason::BredrNotSupported),
    )
}

// 0x0013 Load Long Term Keys, of the right length: what is wrong with the list.
pub fn long_term_keys(hardware: Hardware, ps: &[u8]) -> Result<(), Objection>
    requires { length ps.now ≡ 0 + 2 + 36 * u16 ps.now 0 }
    ensures { result ≡ first_wrong (in_packet (list_checks long_term_key_list hardware ps.now (u16 ps.now 0)
        (records_of long_term_key_list ps.now))) }
{
    let le = rules::le_supported(hardware);
    in_list(
        2,
        ps,
        0,
        Ok(()),
        why::check_later(!le, Reason::LeNotSupported),
    )
}

// 0x0030 Load Identity Resolving Keys, of the right length: what is wrong with the list.
pub fn identity_keys(hardware: Hardware, ps: &[u8]) -> Result<(), Objection>
    requires { length ps.now ≡ 0 + 2 + 23 * u16 ps.now 0 }
    ensures { result ≡ first_wrong (in_packet (list_checks identity_key_list hardware ps.now (u16 ps.now 0)
        (records_of identity_key_list ps.now))) }
{
    let le = rules::le_supported(hardware);
    in_list(
        3,
        ps,
        0,
        Ok(()),
        why::check_later(!le, Reason::LeNotSupported),
    )
}
