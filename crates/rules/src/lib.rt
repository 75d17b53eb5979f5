// What the commands decide and change, by value: no function here touches the lent state or a reply.
#![tactic(auto)]

pub mod effects;

ghost use Rattle.std.specs.Prelude.{◌≡◌, ◌+◌, ◌≤◌, length};
ghost use Rattle.model.specs.State as State;
ghost use Rattle.model.specs.Hub as Hub;
ghost use Rattle.model.specs.Image.{bredr_as_supported, flag_word, radio_ok, static_fits, switches_ok};
ghost use Rattle.model.specs.WellFormed as WellFormed;
ghost use Rattle.model.specs.Rules.{set_powered, set_discoverable, set_connectable, set_low_energy, set_bredr, set_static_address};
ghost use Rattle.octets.specs.Parts.{part};
ghost use Rattle.rules.specs.Decisions.{decision, settings_ok, wait_or_act};

use model::{Hardware, RadioSettings, Settings, Timer, statuses};

// What a settings command comes to, Busy aside: refused before Busy, or after it, with a status; or it waits for the radio, or acts at once.
#[derive(Clone, Copy)]
pub enum Decision {
    Refuse(u8),
    Reject(u8),
    Wait,
    Act,
}

// Tests

// Whether the hardware has BR/EDR.
#[tactic(auto, unfolding(model::specs::State::bredr_supported, model::specs::Octets::bit))]
pub fn bredr_supported(f: Hardware) -> bool
    ensures { result ≡ State.bredr_supported f }
{
    f.supported / 128 % 2 == 1
}

// Whether the hardware has Low Energy.
#[tactic(auto, unfolding(model::specs::State::le_supported, model::specs::Octets::bit))]
pub fn le_supported(f: Hardware) -> bool
    ensures { result ≡ State.le_supported f }
{
    f.supported / 512 % 2 == 1
}

// Whether the six octets from the place `at` on are a static random address. As numbers of 48 bits these lie between the two addresses that have both top
// bits and a random part of all zeros or all ones: C0:00:00:00:00:00 and FF:FF:FF:FF:FF:FF.
pub fn static_random(s: &[u8], at: usize) -> bool
    requires { at + 6 ≤ length s.now }
    ensures { result ≡ State.static_random (part s.now at 6) }
{
    let address = octets::u32_at(s, at) + 0x100000000 * octets::u16_at(s, at + 4);
    0xC00000000000 < address && address < 0xFFFFFFFFFFFF
}

// Whether an address is zero or static random.
#[tactic(auto, using(crate::proofs::Addresses::static_whole), unfolding(model::specs::State::static_address_ok))]
pub fn static_address_ok(a: &[u8]) -> bool
    requires { 6 ≤ length a.now }
    ensures { result ≡ State.static_address_ok a.now }
{
    octets::all_zero(a) || static_random(a, 0)
}

// Whether there is a public or a static address.
#[tactic(auto, unfolding(model::specs::WellFormed::addressed))]
pub fn addressed(r: RadioSettings) -> bool
    ensures { result ≡ WellFormed.addressed r }
{
    !(octets::all_zero(&r.hardware.public_address) && octets::all_zero(&r.static_address))
}

// Whether the static address stands in for the public one: bit 15 of Current_Settings.
#[tactic(auto, unfolding(model::specs::State::static_in_use))]
fn static_in_use(r: RadioSettings) -> bool
    ensures { result ≡ State.static_in_use r }
{
    !octets::all_zero(&r.static_address)
        && (octets::all_zero(&r.hardware.public_address) || !r.bredr)
}

// Current_Settings

// The value of a bit that is on or off.
#[tactic(auto, unfolding(model::specs::State::flag))]
pub fn flag_of(b: bool, n: u64) -> u64
    ensures { (result ≡ State.flag b n) × (result ≤ n) }
{
    if b { n } else { 0 }
}

// Current_Settings of a controller with these settings.
#[tactic(auto, unfolding(model::specs::State::current_settings))]
pub fn current_settings(m: Settings) -> u64
    ensures { result ≡ State.current_settings m }
{
    let r = m.radio;
    let powered = flag_of(r.powered, 1);
    let connectable = flag_of(r.connectable, 2);
    let discoverable = flag_of(m.host.timer.discoverable, 8);
    let bondable = flag_of(m.host.bondable, 16);
    let bredr = flag_of(r.bredr, 128);
    let low_energy = flag_of(r.low_energy, 512);
    let own = flag_of(static_in_use(r), 32768);
    powered + connectable + discoverable + bondable + bredr + low_energy + own
}

// Decisions

// What a command comes to past all checks: it waits for the radio, or acts at once.
#[tactic(auto, unfolding(crate::specs::Decisions::wait_or_act))]
fn wait_or_act(waits: bool) -> Decision
    ensures { result ≡ wait_or_act waits }
{
    if waits { Decision::Wait } else { Decision::Act }
}

// 0x0005 Set Powered.
#[tactic(auto, unfolding(crate::specs::Decisions::decision, crate::specs::Decisions::before_busy_of, crate::specs::Decisions::after_busy_of, model::specs::Reasons::first_of, model::specs::Reasons::status_of, model::specs::Rules::set_powered, model::specs::Rules::on, model::specs::Rules::same_bool, model::specs::Octets::octet, model::specs::WellFormed::addressed))]
pub fn decide_powered(r: RadioSettings, ps: &[u8]) -> Decision
    requires { length ps.now ≡ 1 }
    ensures { result ≡ decision set_powered r ps.now }
{
    if 1 < ps[0] {
        return Decision::Refuse(statuses::INVALID_PARAMETERS);
    }
    let on = ps[0] == 1;
    if on && !addressed(r) {
        return Decision::Reject(statuses::REJECTED);
    }
    wait_or_act(on != r.powered)
}

// 0x0006 Set Discoverable.
#[tactic(auto, unfolding(crate::specs::Decisions::decision, crate::specs::Decisions::before_busy_of, crate::specs::Decisions::after_busy_of, model::specs::Reasons::first_of, model::specs::Reasons::status_of, model::specs::Rules::set_discoverable, model::specs::Octets::octet))]
pub fn decide_discoverable(r: RadioSettings, ps: &[u8]) -> Decision
    requires { length ps.now ≡ 3 }
    ensures { result ≡ decision set_discoverable r ps.now }
{
    let v = ps[0];
    let seconds = octets::u16_at(ps, 1);
    if 2 < v || v == 0 && seconds != 0 || v == 2 && seconds == 0 {
        return Decision::Refuse(statuses::INVALID_PARAMETERS);
    }
    if !bredr_supported(r.hardware) {
        return Decision::Refuse(statuses::NOT_SUPPORTED);
    }
    if !r.powered && seconds != 0 {
        return Decision::Refuse(statuses::NOT_POWERED);
    }
    if v != 0 && (!r.connectable || !r.bredr) {
        return Decision::Reject(statuses::REJECTED);
    }
    wait_or_act(r.powered)
}

// 0x0007 Set Connectable.
#[tactic(auto, unfolding(crate::specs::Decisions::decision, crate::specs::Decisions::before_busy_of, crate::specs::Decisions::after_busy_of, model::specs::Reasons::first_of, model::specs::Reasons::status_of, model::specs::Rules::set_connectable, model::specs::Octets::octet))]
pub fn decide_connectable(r: RadioSettings, ps: &[u8]) -> Decision
    requires { length ps.now ≡ 1 }
    ensures { result ≡ decision set_connectable r ps.now }
{
    if 1 < ps[0] {
        return Decision::Refuse(statuses::INVALID_PARAMETERS);
    }
    wait_or_act(r.powered)
}

// 0x000D Set Low Energy.
#[tactic(auto, unfolding(crate::specs::Decisions::decision, crate::specs::Decisions::before_busy_of, crate::specs::Decisions::after_busy_of, model::specs::Reasons::first_of, model::specs::Reasons::status_of, model::specs::Rules::set_low_energy, model::specs::Rules::on, model::specs::Octets::octet))]
pub fn decide_low_energy(r: RadioSettings, ps: &[u8]) -> Decision
    requires { length ps.now ≡ 1 }
    ensures { result ≡ decision set_low_energy r ps.now }
{
    if 1 < ps[0] {
        return Decision::Refuse(statuses::INVALID_PARAMETERS);
    }
    if !le_supported(r.hardware) {
        return Decision::Refuse(statuses::NOT_SUPPORTED);
    }
    if ps[0] != 1 && (!bredr_supported(r.hardware) || !r.bredr) {
        return Decision::Reject(statuses::REJECTED);
    }
    wait_or_act(r.powered)
}

// 0x002A Set BR/EDR.
#[tactic(auto, unfolding(crate::specs::Decisions::decision, crate::specs::Decisions::before_busy_of, crate::specs::Decisions::after_busy_of, model::specs::Reasons::first_of, model::specs::Reasons::status_of, model::specs::Rules::set_bredr, model::specs::Rules::on, model::specs::Octets::octet))]
pub fn decide_bredr(r: RadioSettings, ps: &[u8]) -> Decision
    requires { length ps.now ≡ 1 }
    ensures { result ≡ decision set_bredr r ps.now }
{
    if 1 < ps[0] {
        return Decision::Refuse(statuses::INVALID_PARAMETERS);
    }
    if !(bredr_supported(r.hardware) && le_supported(r.hardware)) {
        return Decision::Refuse(statuses::NOT_SUPPORTED);
    }
    let on = ps[0] == 1;
    if !on && r.powered || on && !octets::all_zero(&r.static_address) || !r.low_energy {
        return Decision::Reject(statuses::REJECTED);
    }
    wait_or_act(r.powered)
}

// 0x002B Set Static Address.
#[tactic(auto, unfolding(crate::specs::Decisions::decision, crate::specs::Decisions::before_busy_of, crate::specs::Decisions::after_busy_of, model::specs::Reasons::first_of, model::specs::Reasons::status_of, model::specs::Rules::set_static_address, crate::specs::Decisions::wait_or_act))]
pub fn decide_static_address(r: RadioSettings, ps: &[u8]) -> Decision
    requires { length ps.now ≡ 6 }
    ensures { result ≡ decision set_static_address r ps.now }
{
    if !static_address_ok(ps) {
        return Decision::Refuse(statuses::INVALID_PARAMETERS);
    }
    if !le_supported(r.hardware) {
        return Decision::Refuse(statuses::NOT_SUPPORTED);
    }
    if r.powered {
        return Decision::Reject(statuses::REJECTED);
    }
    Decision::Act
}

// The clock

// The step from the last reading to a new one, of a clock of 32 bits that wraps.
#[tactic(auto, unfolding(model::specs::Hub::step_of))]
pub fn clock_step(last: u32, reading: u32) -> u32
    ensures { result ≡ Hub.step_of last reading }
{
    std::num::wrapping_sub_u32(reading, last)
}

// Whether a timer runs and ends within the step.
#[tactic(auto, unfolding(model::specs::Hub::ends))]
pub fn ends(t: Timer, step: u32) -> bool
    ensures { result ≡ Hub.ends step t }
{
    t.seconds != 0 && u32::from(t.seconds) <= step
}

// The timer after the step.
#[tactic(auto, unfolding(model::specs::Hub::countdown, model::specs::Hub::ends))]
pub fn countdown(t: Timer, step: u32) -> Timer
    ensures { result ≡ Hub.countdown step t }
{
    if ends(t, step) {
        return effects::no_timer();
    }
    if t.seconds == 0 {
        return t;
    }
    Timer {
        seconds: (u32::from(t.seconds) - step) as u16,
        ..t
    }
}

// What an image and a well-formed state keep

// What plug and an image may give.
#[tactic(auto, unfolding(model::specs::State::hardware_ok))]
pub fn hardware_ok(f: Hardware) -> bool
    ensures { result ≡ State.hardware_ok f }
{
    if 65535 < f.supported {
        return false;
    }
    if bredr_supported(f) {
        return !octets::all_zero(&f.public_address);
    }
    le_supported(f)
}

// Whether BR/EDR and Low Energy may be so: each on only where it is supported, and one of them on.
#[tactic(auto, unfolding(model::specs::Image::switches_ok))]
pub fn switches_ok(f: Hardware, bredr: bool, low_energy: bool) -> bool
    ensures { result ≡ switches_ok f bredr low_energy }
{
    (!bredr || bredr_supported(f)) && (bredr || low_energy) && (le_supported(f) || !low_energy)
}

// Whether a controller may have this static address: one only where Low Energy is supported, and then a static random one.
#[tactic(auto, unfolding(model::specs::Image::static_fits))]
pub fn static_fits(f: Hardware, a: &[u8]) -> bool
    requires { 6 ≤ length a.now }
    ensures { result ≡ static_fits f a.now }
{
    (le_supported(f) || octets::all_zero(a)) && static_address_ok(a)
}

// Whether hardware, BR/EDR and Low Energy, and static address are valid.
#[tactic(auto, unfolding(model::specs::Image::radio_ok))]
pub fn radio_ok(r: RadioSettings) -> bool
    ensures { result ≡ radio_ok r }
{
    hardware_ok(r.hardware)
        && switches_ok(r.hardware, r.bredr, r.low_energy)
        && static_fits(r.hardware, &r.static_address)
}

// The flags of an image, by the settings that it keeps.
#[tactic(auto, unfolding(model::specs::Image::flag_word))]
pub fn flag_word(connectable: bool, bondable: bool, bredr: bool, low_energy: bool) -> u64
    ensures { result ≡ flag_word connectable bondable bredr low_energy }
{
    flag_of(connectable, 2) + flag_of(bondable, 16) + flag_of(bredr, 128) + flag_of(low_energy, 512)
}

// Whether BR/EDR is on where it is supported.
#[tactic(auto, unfolding(model::specs::Image::bredr_as_supported))]
pub fn bredr_as_supported(r: RadioSettings) -> bool
    ensures { result ≡ bredr_as_supported r }
{
    r.bredr || !bredr_supported(r.hardware)
}

// Whether discoverable has connectable and BR/EDR, a timer has power and discoverable, and power has an address.
#[tactic(auto, unfolding(crate::specs::Decisions::settings_ok, model::specs::WellFormed::settings_fit))]
pub fn settings_fit(m: Settings) -> bool
    ensures { result ≡ settings_ok m }
{
    let r = m.radio;
    let t = m.host.timer;
    (!t.discoverable || r.connectable && r.bredr)
        && (t.seconds == 0 || r.powered && t.discoverable)
        && (!r.powered || addressed(r))
}
