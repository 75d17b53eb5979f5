// The advertising instances 1 to 5 take turns on air: a schedule after a number of seconds, after a change of power, and with an instance
// added, changed or removed, all by value.
//
// The seconds are not counted one by one. The turn under way is ended first. Then whole rounds in which no instance goes are skipped by
// division, and one round of at most 5 turns is walked: at its end no seconds are left, or an instance went. There are at most five instances,
// so that 6 rounds are enough for any number of seconds, and `advance` has no more: at most 1 + 6 * 5 = 31 turns are walked.
#![tactic(auto)]

ghost use Rattle.std.specs.Prelude.{◌≡◌, ◌-◌, ◌≤◌, ◌<◌, [], ◌∷◌};
ghost use Rattle.model.specs.Advertising.{value_of, with_value, present, first_present, following, passed_on, with_instance, seconds};
ghost use Rattle.model.specs.Advertising.{no_schedule, whole_turn, added_instance, removed_instance, lasting, powered_off, repowered};
ghost use Rattle.turns.specs.Ring.{next};
ghost use Rattle.turns.specs.Walk.{Sound, Goes, aired, Turned, Placed, Fresh, Blocked, Skipped, Walked};

use model::Schedule;

mod skips;

// A schedule, and the seconds that are still to come.
#[derive(Clone, Copy)]
struct Pending {
    schedule: Schedule,
    seconds: u32,
}

// What is written for instance k, 0 for none.
#[tactic(auto, using(crate::proofs::Values::value_place, crate::proofs::Values::value_none))]
fn value_of(l: [u16; 5], k: u8) -> u16
    requires { k ≤ 5 }
    ensures { result ≡ value_of l k }
{
    if k == 0 { 0 } else { l[usize::from(k) - 1] }
}

// Another value for instance k.
#[tactic(auto, using(crate::proofs::Values::with_place))]
fn with_value(mut l: [u16; 5], k: u8, x: u16) -> [u16; 5]
    requires { (1 ≤ k) × (k ≤ 5) }
    ensures { result ≡ with_value l k x }
{
    l[usize::from(k) - 1] = x;
    l
}

// Another duration and timeout for instance k; the turn is left alone.
#[tactic(auto, unfolding(model::specs::Advertising::with_instance))]
fn with_instance(s: Schedule, k: u8, d: u16, t: u16) -> Schedule
    requires { (1 ≤ k) × (k ≤ 5) }
    ensures { result ≡ with_instance k d t s }
{
    Schedule {
        durations: with_value(s.durations, k, d),
        timeouts: with_value(s.timeouts, k, t),
        ..s
    }
}

// The place behind p, in a ring of five.
#[tactic(auto, unfolding(crate::specs::Ring::next))]
fn next(p: usize) -> usize
    requires { p < 5 }
    ensures { (result ≡ next p) × (result < 5) }
{
    if p == 4 { 0 } else { p + 1 }
}

// The place of the instance that follows k; instance j stands at place j - 1.
#[tactic(auto, using(crate::proofs::Ring::following_last))]
fn place_behind(k: u8) -> usize
    requires { k ≤ 5 }
    ensures { (result < 5) × (following result ≡ following k) }
{
    if k == 5 { 0 } else { usize::from(k) }
}

// The first instance that is there, of the five from the one behind k on; 0 if none is, a number and no option, as a schedule keeps the one on air (the model's
// `first_present`, and the octets of the state).
fn first_present(s: Schedule, k: u8) -> u8
    requires { k ≤ 5 }
    ensures { (result ≡ first_present s (following k)) × (result ≤ 5) }
{
    let mut p = place_behind(k);
    for _place in 0..5usize {
        if s.durations[p] != 0 {
            return p as u8 + 1;
        }
        p = next(p);
    }
    0
}

// Whether instance k is there.
#[tactic(auto, unfolding(model::specs::Advertising::present, model::specs::Advertising::duration_of))]
pub fn is_present(s: Schedule, k: u8) -> bool
    requires { k ≤ 5 }
    ensures { result ≡ present s k }
{
    value_of(s.durations, k) != 0
}

// No instance is there, and none is on air.
#[tactic(auto, unfolding(model::specs::Advertising::no_schedule))]
pub fn no_schedule() -> Schedule
    ensures { result ≡ no_schedule }
{
    Schedule {
        durations: [0; 5],
        timeouts: [0; 5],
        on_air: 0,
        left: 0,
    }
}

// The turn passes on from k: to the next instance above k that is there, else to the lowest. From 0 it is the lowest.
#[tactic(auto, unfolding(model::specs::Advertising::passed_on, model::specs::Advertising::turn_to, model::specs::Advertising::duration_of))]
pub fn pass_on(s: Schedule, k: u8) -> Schedule
    requires { k ≤ 5 }
    ensures { result ≡ passed_on k s }
{
    let on_air = first_present(s, k);
    Schedule {
        on_air,
        left: value_of(s.durations, on_air),
        ..s
    }
}

// The duration that is kept for a duration of a packet: 0 stands for two seconds.
#[tactic(auto, unfolding(model::specs::Advertising::whole_turn))]
pub fn whole_turn(d: u16) -> u16
    ensures { result ≡ whole_turn d }
{
    if d == 0 { 2 } else { d }
}

// Instance k is added or changed. If power is on, the turn passes on where none is on air or k is.
#[tactic(auto, unfolding(model::specs::Advertising::added_instance))]
pub fn add(s: Schedule, powered: bool, k: u8, d: u16, t: u16) -> Schedule
    requires { (1 ≤ k) × (k ≤ 5) × (s.on_air ≤ 5) }
    ensures { result ≡ added_instance powered k d t s }
{
    let changed = with_instance(s, k, d, t);
    if powered && (s.on_air == 0 || s.on_air == k) {
        return pass_on(changed, s.on_air);
    }
    changed
}

// Instance k is removed, with 0 all are. If it is on air, the turn passes on.
#[tactic(auto, unfolding(model::specs::Advertising::removed_instance, model::specs::Advertising::without))]
pub fn remove(s: Schedule, k: u8) -> Schedule
    requires { k ≤ 5 }
    ensures { result ≡ removed_instance k s }
{
    if k == 0 {
        return no_schedule();
    }
    let rest = with_instance(s, k, 0, 0);
    if k == s.on_air {
        pass_on(rest, k)
    } else {
        rest
    }
}

// The duration d of an instance with timeout t that power off leaves there; 0 where it goes.
#[tactic(auto, unfolding(model::specs::Advertising::lasting))]
fn lasting(d: u16, t: u16) -> u16
    ensures { result ∷ [] ≡ lasting (d ∷ []) (t ∷ []) }
{
    if t == 0 { d } else { 0 }
}

// Power goes off: the instances with a timeout go, and none is on air.
fn power_off(s: Schedule) -> Schedule
    ensures { result ≡ powered_off s }
{
    let mut durations = s.durations;
    for p in 0..5 {
        durations[p] = lasting(s.durations[p], s.timeouts[p]);
    }
    Schedule {
        durations,
        timeouts: [0; 5],
        on_air: 0,
        left: 0,
    }
}

// Power as it is now and as it was before: on while on changes nothing, and power on begins with the lowest instance.
#[tactic(auto, unfolding(model::specs::Advertising::repowered))]
pub fn repower(s: Schedule, now: bool, before: bool) -> Schedule
    ensures { result ≡ repowered now before s }
{
    if !now {
        return power_off(s);
    }
    if before { s } else { pass_on(s, 0) }
}

// Whether an instance with the timeout t goes within the left seconds of its turn, and within n seconds.
fn goes(t: u16, left: u16, n: u32) -> bool
    ensures { Goes t left n result }
{
    t != 0 && t <= left && u32::from(t) <= n
}

// The schedule n seconds later, within the turn and with the instance on air still there.
#[tactic(auto, unfolding(crate::specs::Walk::aired, model::specs::Advertising::timeout_of))]
fn air(s: Schedule, n: u16) -> Schedule
    requires { (1 ≤ s.on_air) × (s.on_air ≤ 5) × (n ≤ s.left) }
    ensures { result ≡ aired n s }
{
    let t = value_of(s.timeouts, s.on_air);
    Schedule {
        timeouts: with_value(s.timeouts, s.on_air, t.saturating_sub(n)),
        left: s.left - n,
        ..s
    }
}

// The rest of the turn that is under way, or as much of it as there are seconds.
fn turn(w: Pending) -> Pending
    requires { Sound w.schedule × (0 < w.schedule.on_air) }
    ensures { Turned w result }
{
    let s = w.schedule;
    let n = w.seconds;
    let t = value_of(s.timeouts, s.on_air);
    if goes(t, s.left, n) {
        return Pending {
            schedule: pass_on(with_instance(s, s.on_air, 0, 0), s.on_air),
            seconds: n - u32::from(t),
        };
    }
    if n < u32::from(s.left) {
        return Pending {
            schedule: air(s, n as u16),
            seconds: 0,
        };
    }
    Pending {
        schedule: pass_on(air(s, s.left), s.on_air),
        seconds: n - u32::from(s.left),
    }
}

// The turn of place p, if instance p + 1 is on air.
fn place(w: Pending, p: usize) -> Pending
    requires { Sound w.schedule × (p < 5) }
    ensures { Placed w p result }
{
    if usize::from(w.schedule.on_air) == p + 1 {
        turn(w)
    } else {
        w
    }
}

// Skips as many whole rounds as no instance goes in, where a turn begins.
fn skip(w: Pending) -> Pending
    requires { Sound w.schedule × (0 < w.schedule.on_air) × Fresh w.schedule }
    ensures { Skipped w result }
{
    let s = w.schedule;
    let whole = skips::whole(s.durations);
    let r = skips::rounds(s.durations, s.timeouts, w.seconds / whole);
    let timeouts = skips::falls(s.durations, s.timeouts, r);
    Pending {
        schedule: Schedule { timeouts, ..s },
        seconds: w.seconds - r * whole,
    }
}

// Walks one round of at most five turns. Since another whole round does not fit or an instance goes in it, no seconds are left then or an
// instance went.
fn walk(w: Pending) -> Pending
    requires { Sound w.schedule × (0 < w.schedule.on_air) × Fresh w.schedule × Blocked w }
    ensures { Walked w result }
{
    let mut v = w;
    let mut p = usize::from(w.schedule.on_air) - 1;
    for _ in 0..5usize {
        v = place(v, p);
        p = next(p);
    }
    v
}

// Skips whole rounds, and walks one.
fn round(w: Pending) -> Pending
    requires { Sound w.schedule × Fresh w.schedule }
    ensures { Walked w result }
{
    if w.schedule.on_air == 0 {
        return Pending { seconds: 0, ..w };
    }
    walk(skip(w))
}

// The schedule n seconds later. At most the turn under way and 6 rounds of at most 5 turns are walked: 31 turns.
pub fn advance(s: Schedule, n: u32) -> Schedule
    requires { Sound s }
    ensures { result ≡ seconds n s }
{
    if s.on_air == 0 {
        return s;
    }
    let mut w = turn(Pending {
        schedule: s,
        seconds: n,
    });
    for _ in 0..6usize {
        if w.seconds == 0 {
            return w.schedule;
        }
        w = round(w);
    }
    w.schedule
}
