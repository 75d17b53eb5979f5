// Advertising over the lent state: instances added, changed and removed, and what the driver is told of the one on air.
#![tactic(auto)]

ghost use Rattle.std.specs.Prelude.{◌≡◌, true, ◌||◌, ◌+◌, ◌≤◌, get_or, length, eqb};
ghost use Rattle.model.specs.Codes as Codes;
ghost use Rattle.model.specs.Lengths as Lengths;
ghost use Rattle.model.specs.Advertising.{present};
ghost use Rattle.model.specs.Reasons.{first_of};
ghost use Rattle.model.specs.Immediate.{add_advertising, advertised, advertising_checks, remove_advertising};
ghost use Rattle.model.specs.State.{with_advertising, with_host};
ghost use Rattle.model.specs.Layout.{decode, encode};
ghost use Rattle.model.specs.Meanings.{state_ok};
ghost use Rattle.layout.specs.Places.{Ready, controller_of, put_controller};
ghost use Rattle.replies.specs.Answers.{Gives};
ghost use Rattle.outcomes.specs.Outcomes.{immediate_command, on_air_read};
ghost use Rattle.advertising.specs.Refusals.{status_if};

use model::{Answer, RadioSettings, Schedule, codes, statuses};

// Whether the parameters of Add Advertising are as many as its two data lengths say.
pub fn sized(ps: &[u8]) -> bool
    ensures { result ≡ add_advertising.size ps.now }
{
    11 <= ps.len() && ps.len() == 11 + usize::from(ps[9]) + usize::from(ps[10])
}

// The status that refuses Add Advertising on these radio settings, if one does.
#[tactic(auto, unfolding(crate::specs::Refusals::status_if, model::specs::Immediate::advertising_checks, model::specs::Reasons::first_of, model::specs::Reasons::status_of, model::specs::Octets::octet))]
fn refusal(r: RadioSettings, ps: &[u8]) -> Option<u8>
    requires { 11 ≤ length ps.now }
    ensures { result ≡ status_if (first_of (advertising_checks r ps.now)) }
{
    if ps[0] == 0 || 5 < ps[0] || !octets::all_zero(&ps[1..5]) || 31 < ps[9] || 31 < ps[10] {
        return Some(statuses::INVALID_PARAMETERS);
    }
    if !r.low_energy || !r.powered && octets::u16_at(ps, 7) != 0 {
        return Some(statuses::REJECTED);
    }
    None
}

// Keeps the instance that Add Advertising names, with its turns and data.
fn keep(state: &mut [u8], index: u64, ps: &[u8], powered: bool, old: Schedule)
    requires { Ready state.old index × (11 ≤ length ps.now) × (length ps.now ≡ 11 + get_or ps.now 9 0 + get_or ps.now 10 0)
        × (1 ≤ get_or ps.now 0 0) × (get_or ps.now 0 0 ≤ 5) × (get_or ps.now 9 0 ≤ 31) × (get_or ps.now 10 0 ≤ 31)
        × (old ≡ (controller_of state.old index).host.advertising.schedule) × (old.on_air ≤ 5) }
    ensures { state.new ≡ encode (put_controller (decode state.old) index (with_host (controller_of state.old index)
        (with_advertising (controller_of state.old index).host
        (advertised powered ps.now (controller_of state.old index).host.advertising)))) }
{
    let k = ps[0];
    let duration = turns::whole_turn(octets::u16_at(ps, 5) as u16);
    let timeout = octets::u16_at(ps, 7) as u16;
    let mid = 11 + usize::from(ps[9]);
    let next = turns::add(old, powered, k, duration, timeout);
    layout::put_instance(state, index, next, k, &ps[11..mid], &ps[mid..]);
}

// 0x003E Add Advertising.
pub fn add_advertising(state: &mut [u8], index: u64, ps: &[u8], reply: &mut [u8]) -> Answer
    requires { Ready state.old index × (Lengths.reply_buffer ≤ length reply.old) }
    ensures { Gives (immediate_command state.old index Codes.add_advertising ps.now add_advertising) result reply.old
        reply.new state.new }
{
    if !sized(ps) {
        return replies::refuse(
            reply,
            index,
            codes::ADD_ADVERTISING,
            statuses::INVALID_PARAMETERS,
        );
    }
    let r = layout::settings_at(state, index).radio;
    if let Some(status) = refusal(r, ps) {
        return replies::refuse(reply, index, codes::ADD_ADVERTISING, status);
    }
    let old = layout::schedule_at(state, index);
    keep(state, index, ps, r.powered, old);
    replies::command_complete(reply, 0, index, codes::ADD_ADVERTISING, 0, &ps[..1]);
    if turns::is_present(old, ps[0]) {
        return Answer::Done(10);
    }
    replies::advertising_added(reply, 10, index, ps[0]);
    Answer::Done(17)
}

// Whether Remove Advertising of k has something to name: all instances, or one that is there.
pub fn removable(s: Schedule, k: u8) -> bool
    ensures { (result ≡ (eqb k 0 || present s k)) × (result ≡ true → k ≤ 5) }
{
    k == 0 || k <= 5 && turns::is_present(s, k)
}

// 0x003F Remove Advertising.
pub fn remove_advertising(state: &mut [u8], index: u64, ps: &[u8], reply: &mut [u8]) -> Answer
    requires { Ready state.old index × (Lengths.reply_buffer ≤ length reply.old) }
    ensures { Gives (immediate_command state.old index Codes.remove_advertising ps.now remove_advertising) result reply.old
        reply.new state.new }
{
    if ps.len() != 1 {
        return replies::refuse(
            reply,
            index,
            codes::REMOVE_ADVERTISING,
            statuses::INVALID_PARAMETERS,
        );
    }
    let old = layout::schedule_at(state, index);
    if removable(old, ps[0]) {
        let m = layout::settings_at(state, index);
        let next = turns::remove(old, ps[0]);
        layout::put_turns(state, index, m, old, next);
        replies::command_complete(reply, 0, index, codes::REMOVE_ADVERTISING, 0, ps);
        let end = replies::advertising_removed(reply, 10, index, old, next);
        return Answer::Done(end);
    }
    replies::refuse(
        reply,
        index,
        codes::REMOVE_ADVERTISING,
        statuses::INVALID_PARAMETERS,
    )
}

// Tells of the instance k on air at index: the instance, the lengths of its data, the data.
fn tell(state: &[u8], index: u64, k: u8, reply: &mut [u8]) -> Answer
    requires { Ready state.now index × (1 ≤ k) × (k ≤ 5) × (Lengths.reply_buffer ≤ length reply.old)
        × (k ≡ (controller_of state.now index).host.advertising.schedule.on_air) }
    ensures { Gives (on_air_read state.now index) result reply.old reply.new state.now }
{
    let adv = layout::adv_data(state, index, k);
    let scan = layout::scan_rsp(state, index, k);
    let n = adv.len();
    let m = scan.len();
    octets::put8(reply, 0, k);
    octets::put8(reply, 1, n as u8);
    octets::put8(reply, 2, m as u8);
    octets::copy_into(reply, 3, adv);
    octets::copy_into(reply, 3 + n, scan);
    Answer::Done(3 + n + m)
}

// What the controller at an index has on air; the state is only read.
pub fn on_air(state: &[u8], index: u64, reply: &mut [u8]) -> Answer
    requires { (state_ok state.now ≡ true) × (length state.now ≡ Lengths.state) × (Lengths.reply_buffer ≤ length reply.old) }
    ensures { Gives (on_air_read state.now index) result reply.old reply.new state.now }
{
    if layout::present(state, index) {
        let t = layout::schedule_at(state, index);
        if t.on_air == 0 {
            return Answer::Done(0);
        }
        return tell(state, index, t.on_air, reply);
    }
    Answer::BadArgument
}
