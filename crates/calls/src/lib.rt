// The calls that are no command: a controller is unplugged or plugged, and the clock is read.
#![tactic(auto)]

ghost use Rattle.std.specs.Prelude.{◌≡◌, true, [], ◌+◌, ◌≤◌, ◌<◌, length};
ghost use Rattle.model.specs.Lengths as Lengths;
ghost use Rattle.model.specs.Octets as Octets;
ghost use Rattle.model.specs.State.{controller_at};
ghost use Rattle.model.specs.Hub.{clock_out, countdown, ends, plug_out, unplug_out, unplugged};
ghost use Rattle.model.specs.Layout.{decode};
ghost use Rattle.model.specs.Meanings.{laid_out, state_ok};
ghost use Rattle.octets.specs.Parts.{write_at};
ghost use Rattle.rules.specs.Effects.{settings_timer};
ghost use Rattle.layout.specs.Places.{Ready, controller_of};
ghost use Rattle.replies.specs.Answers.{Gives};
ghost use Rattle.outcomes.specs.Outcomes.{ended};
ghost use Rattle.calls.specs.Given.{hardware_given};
ghost use Rattle.calls.specs.Ticks.{Ticked, end_event};

use model::{Answer, Hardware, Schedule, Settings, events, statuses};

// An event that tells an index and nothing else, 6 octets.
fn index_event(reply: &mut [u8], at: usize, code: u64, index: u64)
    requires { at + 6 ≤ length reply.old }
    ensures { reply.new ≡ write_at reply.old at (Octets.event code index []) }
{
    replies::event(reply, at, code, index, &[]);
}

// Unplugs the controller at an index: the command under way there is told Invalid Index, Index Removed comes behind, and the index is empty.
pub fn unplug(state: &mut [u8], index: u64, reply: &mut [u8]) -> Answer
    requires { (state_ok state.old ≡ true) × (length state.old ≡ Lengths.state) × (Lengths.reply_buffer ≤ length reply.old) }
    ensures { Gives (laid_out (unplugged (decode state.old) index
        (unplug_out (decode state.old).plain index (controller_at (decode state.old).plain index)))) result reply.old
        reply.new state.new }
{
    if layout::present(state, index) {
        let code = layout::open_code(state, index);
        layout::empty_block(state, index);
        if code == 0 {
            index_event(reply, 0, events::INDEX_REMOVED, index);
            return Answer::Done(6);
        }
        replies::command_status(reply, 0, index, code, statuses::INVALID_INDEX);
        index_event(reply, 9, events::INDEX_REMOVED, index);
        return Answer::Done(15);
    }
    Answer::BadArgument
}

// Plugs a controller in at an index: it is as new, and Index Added is written.
pub fn plug(
    state: &mut [u8],
    index: u64,
    address: &[u8],
    version: u8,
    manufacturer: u16,
    supported: u32,
    reply: &mut [u8],
) -> Answer
    requires { (state_ok state.old ≡ true) × (length state.old ≡ Lengths.state) × (Lengths.reply_buffer ≤ length reply.old) }
    ensures { Gives (ended state.old (plug_out (decode state.old).plain index
        (hardware_given address.now version manufacturer supported) (controller_at (decode state.old).plain index))) result
        reply.old reply.new state.new }
{
    if layout::present(state, index) {
        return Answer::BadArgument;
    }
    if 3 < index {
        return Answer::BadArgument;
    }
    if address.len() != 6 {
        return Answer::BadArgument;
    }
    let f = Hardware {
        public_address: octets::six(address, 0),
        version,
        manufacturer,
        supported,
    };
    if rules::hardware_ok(f) {
        layout::fill_block(state, index, f);
        index_event(reply, 0, events::INDEX_ADDED, index);
        return Answer::Done(6);
    }
    Answer::BadArgument
}

// The settings with their timer counted down by the step.
fn counted(before: Settings, step: u32) -> Settings
    ensures { result ≡ settings_timer before (countdown step before.host.timer) }
{
    rules::effects::with_timer(before, timer::counted_down(before.host.timer, step))
}

// New Settings at the place, if the timer of the settings before ends with this step. Returns the place behind.
fn timer_end(
    reply: &mut [u8],
    place: usize,
    index: u64,
    step: u32,
    before: Settings,
    after: Settings,
) -> usize
    requires { (place + 10 ≤ length reply.old) × (place ≤ 135) }
    ensures { (result ≤ place + 10) × (result ≡ place + length (end_event (ends step before.host.timer) index after))
        × (reply.new ≡ write_at reply.old place (end_event (ends step before.host.timer) index after)) }
{
    if rules::ends(before.host.timer, step) {
        replies::new_settings(reply, place, index, rules::current_settings(after));
        return place + 10;
    }
    place
}

// The step of a controller with no instance on air: only its timer may run. Writes New Settings at the place if it ends. Returns the place behind.
fn tick_timer(state: &mut [u8], index: u64, step: u32, reply: &mut [u8], place: usize) -> usize
    requires { Ready state.old index × ((controller_of state.old index).host.advertising.schedule.on_air ≡ 0)
        × (place + 45 ≤ length reply.old) × (place ≤ 135) }
    ensures { Ticked state.old step index place result reply.old reply.new state.new }
{
    let before = layout::settings_at(state, index);
    if before.host.timer.seconds == 0 {
        return place;
    }
    let after = counted(before, step);
    layout::put_settings(state, index, after);
    timer_end(reply, place, index, step, before, after)
}

// The step of a controller with these turns: writes at the place New Settings if its timer ends, then Advertising Removed for each instance that went. Returns
// the place behind.
fn tick_turns(
    state: &mut [u8],
    index: u64,
    step: u32,
    reply: &mut [u8],
    place: usize,
    was: Schedule,
) -> usize
    requires { Ready state.old index × (was ≡ (controller_of state.old index).host.advertising.schedule) × (place + 45 ≤ length reply.old) × (place ≤ 135) }
    ensures { Ticked state.old step index place result reply.old reply.new state.new }
{
    let before = layout::settings_at(state, index);
    let after = counted(before, step);
    let next = turns::advance(was, step);
    layout::put_turns(state, index, after, was, next);
    let behind = timer_end(reply, place, index, step, before, after);
    replies::advertising_removed(reply, behind, index, was, next)
}

// Takes the controller at an index, if one is there, the step on: its timer, and the turns of its advertising. Writes the events that are due at the place.
// Returns the place behind them.
fn tick(state: &mut [u8], index: u64, step: u32, reply: &mut [u8], place: usize) -> usize
    requires { (state_ok state.old ≡ true) × (length state.old ≡ Lengths.state) × (index < 4) × (place + 45 ≤ length reply.old) × (place ≤ 135) }
    ensures { Ticked state.old step index place result reply.old reply.new state.new }
{
    if layout::present(state, index) {
        let was = layout::schedule_at(state, index);
        if was.on_air == 0 {
            return tick_timer(state, index, step, reply, place);
        }
        return tick_turns(state, index, step, reply, place, was);
    }
    place
}

// A reading of the clock: every controller is taken the step on, indexes ascending, and the reading is kept.
pub fn clock(state: &mut [u8], reading: u32, reply: &mut [u8]) -> Answer
    requires { (state_ok state.old ≡ true) × (length state.old ≡ Lengths.state) × (Lengths.reply_buffer ≤ length reply.old) }
    ensures { Gives (ended state.old (clock_out (decode state.old).plain reading)) result reply.old reply.new
        state.new }
{
    let last = layout::clock_at(state);
    let step = rules::clock_step(last, reading);
    if 0x80000000 <= step {
        return Answer::BadArgument;
    }
    let a = tick(state, 0, step, reply, 0);
    let b = tick(state, 1, step, reply, a);
    let c = tick(state, 2, step, reply, b);
    let d = tick(state, 3, step, reply, c);
    layout::put_clock(state, reading);
    Answer::Done(d)
}
