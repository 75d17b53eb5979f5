// Whether lent octets are a well-formed state: for any octets of any length, the model's own test.
#![tactic(auto)]

ghost use Rattle.std.specs.Prelude.{◌≡◌, ◌+◌, ◌*◌, ◌≤◌, ◌<◌, drop, length};
ghost use Rattle.model.specs.Lengths as Lengths;
ghost use Rattle.model.specs.declared.Hardware.{Hardware};
ghost use Rattle.model.specs.Octets.{all_zero, u16};
ghost use Rattle.model.specs.Tables.{table_rules};
ghost use Rattle.model.specs.Image.{name_ok};
ghost use Rattle.model.specs.Meanings.{state_ok};
ghost use Rattle.model.specs.Tables.{rule_at};
ghost use Rattle.octets.specs.Parts.{part};
ghost use Rattle.layout.specs.Places.{base, controller_of};
ghost use Rattle.rules.specs.Decisions.{is_started};
ghost use Rattle.checks.specs.Blocks.{block_ok};
ghost use Rattle.checks.specs.Open.{open_octets_ok};
ghost use Rattle.checks.specs.Present.{block_at, controller_octets_ok};
ghost use Rattle.checks.specs.Settings.{flags_octets_ok};
ghost use Rattle.checks.specs.Tables.{table_octets_ok, tables_octets_ok};
ghost use Rattle.checks.specs.Waiting.{waiting_octets_ok};

use model::{Hardware, RadioSettings, codes, lengths};
use rules::Decision;

mod advertising;

// Whether all octets are zero. They nearly always are, so they are joined by or, with no test before the end.
fn blank(s: &[u8]) -> bool
    ensures { result ≡ all_zero s.now }
{
    let mut joined = 0u8;
    for x in s {
        joined |= *x;
    }
    joined == 0
}

// Tables

// Whether the table k that lies at a place is well formed and its free slots are zero, of a controller with these supported settings.
fn table_ok(s: &[u8], at: usize, k: usize, supported: u32) -> bool
    requires { (k < 6) × (at + (4 + (rule_at k).size * 32) ≤ length s.now) }
    ensures { (f : Hardware) → f.supported ≡ supported → result ≡ table_octets_ok (rule_at k) f s.now at }
{
    let w = octets::u32_at(s, at);
    let slots = at + 4;
    if w == 0 {
        return blank(&s[slots..slots + records::size_of(k) * 32]);
    }
    records::supports(k, supported) && records::slots_keep_rules(k, s, slots, 32, w)
}

// Whether the six tables that lie from a place on are so, of a controller with this hardware.
fn tables_ok(s: &[u8], place: usize, f: Hardware) -> bool
    requires { place + 3736 ≤ length s.now }
    ensures { result ≡ tables_octets_ok f table_rules s.now place }
{
    let mut at = place;
    for k in 0..6 {
        if !table_ok(s, at, k, f.supported) {
            return false;
        }
        at += 4 + records::size_of(k) * 32;
    }
    true
}

// The open command

// Whether a decision is to wait for the radio.
#[tactic(auto, unfolding(rules::specs::Decisions::is_started))]
fn waits(d: Decision) -> bool
    ensures { result ≡ is_started d }
{
    matches!(d, Decision::Wait)
}

// Whether nothing is under way and all is zero, or a command that would be started on these radio settings, with zeros behind its parameters.
fn open_ok(s: &[u8], at: usize, r: RadioSettings) -> bool
    requires { at + 5 ≤ length s.now }
    ensures { result ≡ open_octets_ok r (u16 s.now at) (part s.now (at + 2) 3) }
{
    let code = octets::u16_at(s, at);
    if code == 0 {
        return octets::all_zero(&s[at + 2..at + 5]);
    }
    if code == codes::SET_DISCOVERABLE {
        return waits(rules::decide_discoverable(r, &s[at + 2..at + 5]));
    }
    if !octets::all_zero(&s[at + 3..at + 5]) {
        return false;
    }
    let value = &s[at + 2..at + 3];
    match code {
        codes::SET_POWERED => waits(rules::decide_powered(r, value)),
        codes::SET_CONNECTABLE => waits(rules::decide_connectable(r, value)),
        codes::SET_LOW_ENERGY => waits(rules::decide_low_energy(r, value)),
        codes::SET_BREDR => waits(rules::decide_bredr(r, value)),
        _ => false,
    }
}

// Blocks

// Where block i begins.
fn block_place(i: u64) -> usize
    requires { i < 4 }
    ensures { result ≡ base i }
{
    layout::open_place(i) - 1
}

// Whether each of the six flags of the block that begins at b is 0 or 1.
#[tactic(auto, unfolding(crate::specs::Settings::flags_octets_ok))]
fn flags_ok(s: &[u8], b: usize) -> bool
    requires { b + 33 ≤ length s.now }
    ensures { result ≡ flags_octets_ok s.now b }
{
    s[b + layout::places::POWERED] <= 1
        && s[b + layout::places::CONNECTABLE] <= 1
        && s[b + layout::places::DISCOVERABLE] <= 1
        && s[b + layout::places::BONDABLE] <= 1
        && s[b + layout::places::BREDR] <= 1
        && s[b + layout::places::LOW_ENERGY] <= 1
}

// Whether name and short name of index i end in a zero.
fn name_ok(s: &[u8], i: u64) -> bool
    requires { (length s.now ≡ Lengths.state) × (i < 4) }
    ensures { result ≡ name_ok (controller_of s.now i).host.name }
{
    let at = layout::name_place(i);
    s[at + 248] == 0 && s[at + 259] == 0
}

// Whether the block of index i, which has a controller, is well formed.
fn controller_ok(s: &[u8], i: u64) -> bool
    requires { (length s.now ≡ Lengths.state) × (i < 4) }
    ensures { result ≡ controller_octets_ok s.now i }
{
    let b = block_place(i);
    let m = layout::settings_at(s, i);
    let r = m.radio;
    rules::radio_ok(r)
        && rules::settings_fit(m)
        && name_ok(s, i)
        && flags_ok(s, b)
        && open_ok(s, b + layout::places::OPEN_CODE, r)
        && tables_ok(s, b + layout::places::TABLES, r.hardware)
        && advertising::advertising_ok(
            s,
            b + layout::places::ADVERTISING,
            layout::schedule_at(s, i),
            r.low_energy,
            r.powered,
        )
}

// Whether block i is well formed: a controller's, or all zero.
fn block_ok(s: &[u8], i: u64) -> bool
    requires { (length s.now ≡ Lengths.state) × (i < 4) }
    ensures { result ≡ block_ok (block_at s.now i) }
{
    if layout::present(s, i) {
        return controller_ok(s, i);
    }
    let b = block_place(i);
    blank(&s[b..b + lengths::BLOCK])
}

// Whether less than one packet waits, with zeros behind what is kept of it.
fn waiting_ok(s: &[u8]) -> bool
    requires { length s.now ≡ Lengths.state }
    ensures { result ≡ waiting_octets_ok (drop Lengths.blocks_end s.now) }
{
    let n = layout::waiting::taken(s);
    let said = layout::waiting::kept_said(s);
    if said <= n {
        return false;
    }
    let kept = layout::waiting::kept_count(n, said);
    let behind = layout::waiting::KEPT + kept;
    blank(&s[behind..behind + (lengths::LONGEST_KEPT - kept)])
}

// Whether lent octets are a well-formed state.
pub fn well_formed(state: &[u8]) -> bool
    ensures { result ≡ state_ok state.now }
{
    state.len() == lengths::STATE
        && block_ok(state, 0)
        && block_ok(state, 1)
        && block_ok(state, 2)
        && block_ok(state, 3)
        && waiting_ok(state)
}
