// Whether the advertising of a controller is well formed where it lies in lent octets.
ghost use Rattle.std.specs.Prelude.{◌≡◌, ◌&&◌, ◌||◌, not, ◌+◌, ◌≤◌, eqb, length, drop};
ghost use Rattle.model.specs.Octets.{all_zero};
ghost use Rattle.model.specs.Advertising.{value_of};
ghost use Rattle.model.specs.WellFormed.{schedule_ok, times_ok, turn_ok};
ghost use Rattle.model.specs.Layout.{schedule_back};
ghost use Rattle.checks.specs.Advertising.{advertising_octets_ok, data_octets_ok, slot_octets_ok};

use crate::blank;
use model::Schedule;

// The schedule

// Whether the durations of all five instances are zero, or the timeouts: none is there, or none has a timeout.
fn zeros(l: [u16; 5]) -> bool
    ensures { result ≡ all_zero l }
{
    l[0] | l[1] | l[2] | l[3] | l[4] == 0
}

// Whether this is on, or the durations or timeouts of all five instances are zero.
fn on_or_zeros(on: bool, l: [u16; 5]) -> bool
    ensures { result ≡ (on || all_zero l) }
{
    on || zeros(l)
}

// The duration or timeout of instance k, 0 for what is no instance.
#[tactic(auto, using(crate::proofs::AdvertisingLaws::value_none, crate::proofs::AdvertisingLaws::value_past, crate::proofs::AdvertisingLaws::value_some))]
fn value_of(l: [u16; 5], k: u8) -> u16
    ensures { result ≡ value_of l k }
{
    match k {
        1..=5 => l[usize::from(k) - 1],
        _ => 0,
    }
}

// Whether no absent instance has a timeout.
fn times_ok(durations: [u16; 5], timeouts: [u16; 5]) -> bool
    ensures { result ≡ (eqb (length durations) 5 && times_ok durations timeouts) }
{
    for p in 0..5 {
        if !there_or_zero(durations[p], usize::from(timeouts[p])) {
            return false;
        }
    }
    true
}

// Whether an instance with this duration can have so many seconds or octets: an absent one has none.
fn there_or_zero(duration: u16, n: usize) -> bool
    ensures { result ≡ (not (eqb duration 0) || eqb n 0) }
{
    duration != 0 || n == 0
}

// Whether an instance is on air exactly if power is on and one is there, for 1 second to its whole duration.
#[tactic(auto, using(crate::proofs::AdvertisingLaws::turn_rests, crate::proofs::AdvertisingLaws::turn_runs))]
fn turn_ok(t: Schedule, powered: bool) -> bool
    ensures { result ≡ turn_ok powered t }
{
    if on_or_zeros(!powered, t.durations) {
        return t.on_air == 0 && t.left == 0;
    }
    t.left != 0 && t.left <= value_of(t.durations, t.on_air)
}

// Whether a schedule keeps its rules, of a controller with these settings.
#[tactic(auto, unfolding(model::specs::WellFormed::schedule_ok))]
fn schedule_ok(t: Schedule, le: bool, powered: bool) -> bool
    ensures { result ≡ schedule_ok le powered t }
{
    times_ok(t.durations, t.timeouts)
        && on_or_zeros(le, t.durations)
        && on_or_zeros(powered, t.timeouts)
        && turn_ok(t, powered)
}

// Data

// Whether the data of an instance with this duration are well formed where they lie.
fn slot_ok(s: &[u8], at: usize, duration: u16) -> bool
    requires { at + 32 ≤ length s.now }
    ensures { result ≡ slot_octets_ok duration s.now at }
{
    let n = usize::from(s[at]);
    n <= 31 && there_or_zero(duration, n) && blank(&s[at + (1 + n)..at + 32])
}

// Whether those of five instances, one behind the other, are.
fn data_ok(s: &[u8], place: usize, durations: [u16; 5]) -> bool
    requires { place + 160 ≤ length s.now }
    ensures { result ≡ data_octets_ok durations s.now place }
{
    let mut at = place;
    for d in &durations {
        if !slot_ok(s, at, *d) {
            return false;
        }
        at += 32;
    }
    true
}

// Whether the advertising that lies at a place, whose schedule is this one, is well formed, of a controller with these settings. Mostly no instance is there:
// then all is zero.
pub fn advertising_ok(s: &[u8], at: usize, t: Schedule, le: bool, powered: bool) -> bool
    requires { (at + 343 ≤ length s.now) × (t ≡ schedule_back (drop at s.now)) }
    ensures { result ≡ advertising_octets_ok le powered s.now at }
{
    if zeros(t.durations) {
        return blank(&s[at..at + 343]);
    }
    schedule_ok(t, le, powered)
        && data_ok(s, at + 23, t.durations)
        && data_ok(s, at + 183, t.durations)
}
