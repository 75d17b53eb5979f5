// The settings commands over the lent state, and the report: each does to state and reply what the model says, octet for octet.
#![tactic(auto)]

ghost use Rattle.std.specs.Prelude.{◌≡◌, true, ◌+◌, ◌<◌, ◌≤◌, length};
ghost use Rattle.model.specs.Codes as Codes;
ghost use Rattle.model.specs.Lengths as Lengths;
ghost use Rattle.model.specs.Octets.{u16};
ghost use Rattle.model.specs.State.{current_settings, settings_of};
ghost use Rattle.model.specs.Rules.{set_bredr, set_connectable, set_discoverable, set_low_energy, set_powered, set_static_address};
ghost use Rattle.model.specs.Immediate.{set_bondable};
ghost use Rattle.model.specs.Layout.{decode, encode};
ghost use Rattle.model.specs.Meanings.{state_ok};
ghost use Rattle.octets.specs.Parts.{write_at};
ghost use Rattle.layout.specs.Places.{Ready, controller_of, place_of, put_controller};
ghost use Rattle.replies.specs.Answers.{Gives};
ghost use Rattle.replies.specs.Frames.{settings_reply};
ghost use Rattle.model.specs.declared.Answer.TheVariants.{Done};
ghost use Rattle.rules.specs.declared.Decision.TheVariants.{Wait};
ghost use Rattle.rules.specs.Effects.{with_settings};
ghost use Rattle.outcomes.specs.Outcomes.{radio_command, reported, immediate_command};
ghost use Rattle.settings.specs.Follows.{CarriesOut, UnlessBusy};
ghost use Rattle.settings.specs.Opens.{Makes};
ghost use Rattle.settings.specs.Turns.{acted_controller, acted_reply, schedule_of, turns_after};

use model::{Answer, RadioSettings, Schedule, Settings, codes, statuses};
use rules::Decision;

// The ways to end

// The reply of a command that acts: the settings `old` become `new`. Returns the count of octets.
fn tell(reply: &mut [u8], index: u64, code: u64, old: Settings, new: Settings) -> usize
    requires { 23 ≤ length reply.old }
    ensures { (result ≡ length (settings_reply index code (current_settings old) (current_settings new)))
        × (reply.new ≡ write_at reply.old 0 (settings_reply index code (current_settings old) (current_settings new))) }
{
    let before = rules::current_settings(old);
    let after = rules::current_settings(new);
    replies::settings_reply(reply, index, code, before, after)
}

// A command acts on the settings alone: `old` become `new`, and the reply tells them.
fn apply_settings(
    state: &mut [u8],
    index: u64,
    code: u64,
    reply: &mut [u8],
    old: Settings,
    new: Settings,
) -> Answer
    requires { Ready state.old index × (23 ≤ length reply.old) }
    ensures { (result ≡ Done (length (settings_reply index code (current_settings old) (current_settings new))))
        × (reply.new ≡ write_at reply.old 0 (settings_reply index code (current_settings old) (current_settings new)))
        × (state.new ≡ encode (put_controller (decode state.old) index (with_settings (controller_of state.old index) new))) }
{
    layout::put_settings(state, index, new);
    let count = tell(reply, index, code, old, new);
    Answer::Done(count)
}

// What the turns `was` of the advertising become where the settings `old` become `new`: none without Low Energy, else as power now and before says.
fn turns_after(was: Schedule, old: RadioSettings, new: RadioSettings) -> Schedule
    ensures { result ≡ turns_after old new was }
{
    if !new.low_energy {
        return turns::no_schedule();
    }
    turns::repower(was, new.powered, old.powered)
}

// A command acts, also on the turns of the advertising; Advertising Removed stands behind New Settings.
fn apply_with_turns(
    state: &mut [u8],
    index: u64,
    code: u64,
    reply: &mut [u8],
    old: Settings,
    new: Settings,
) -> Answer
    requires { Ready state.old index × (58 ≤ length reply.old) }
    ensures { (result ≡ Done (length (acted_reply index code old new (schedule_of state.old index))))
        × (reply.new ≡ write_at reply.old 0 (acted_reply index code old new (schedule_of state.old index)))
        × (state.new ≡ encode (put_controller (decode state.old) index (acted_controller (controller_of state.old index) old new))) }
{
    let was = layout::schedule_at(state, index);
    let next = turns_after(was, old.radio, new.radio);
    layout::put_turns(state, index, new, was, next);
    let count = tell(reply, index, code, old, new);
    let end = replies::advertising_removed(reply, count, index, was, next);
    Answer::Done(end)
}

// A command acts: the settings `old` become `new`. Where power and Low Energy stay, so do the turns of the advertising.
fn apply(
    state: &mut [u8],
    index: u64,
    code: u64,
    reply: &mut [u8],
    old: Settings,
    new: Settings,
) -> Answer
    requires { Ready state.old index × (58 ≤ length reply.old) × (old ≡ settings_of (controller_of state.old index)) }
    ensures { (result ≡ Done (length (acted_reply index code old new (schedule_of state.old index))))
        × (reply.new ≡ write_at reply.old 0 (acted_reply index code old new (schedule_of state.old index)))
        × (state.new ≡ encode (put_controller (decode state.old) index (acted_controller (controller_of state.old index) old new))) }
{
    if old.radio.powered == new.radio.powered && old.radio.low_energy == new.radio.low_energy {
        return apply_settings(state, index, code, reply, old, new);
    }
    apply_with_turns(state, index, code, reply, old, new)
}

// Set Bondable

// 0x0009 Set Bondable: it waits for no radio.
pub fn set_bondable(state: &mut [u8], index: u64, ps: &[u8], reply: &mut [u8]) -> Answer
    requires { Ready state.old index × (Lengths.reply_buffer ≤ length reply.old) }
    ensures { Gives (immediate_command state.old index Codes.set_bondable ps.now set_bondable) result reply.old reply.new
        state.new }
{
    if ps.len() != 1 || 1 < ps[0] {
        return replies::refuse(
            reply,
            index,
            codes::SET_BONDABLE,
            statuses::INVALID_PARAMETERS,
        );
    }
    let old = layout::settings_at(state, index);
    let new = rules::effects::with_bondable(old, ps[0] == 1);
    apply_settings(state, index, codes::SET_BONDABLE, reply, old, new)
}

// The commands that can be Busy

// A settings command past the checks before Busy: Busy, Rejected, started, or done at once.
fn unless_busy(
    state: &mut [u8],
    index: u64,
    code: u64,
    ps: &[u8],
    reply: &mut [u8],
    d: Decision,
    old: Settings,
    new: Settings,
) -> Answer
    requires { Ready state.old index × (Lengths.reply_buffer ≤ length reply.old) × (0 < code) × (code < 65536) × (d ≡ Wait → length ps.now ≤ 3)
        × (old ≡ settings_of (controller_of state.old index)) }
    ensures { UnlessBusy state.old index code ps.now d old new result reply.old reply.new state.new }
{
    if layout::open_code(state, index) != 0 {
        return replies::refuse(reply, index, code, statuses::BUSY);
    }
    match d {
        Decision::Refuse(status) | Decision::Reject(status) => {
            replies::refuse(reply, index, code, status)
        }
        Decision::Wait => {
            layout::put_open(state, index, code, ps);
            Answer::Started
        }
        Decision::Act => apply(state, index, code, reply, old, new),
    }
}

// The end that the six share, once their length is right: refused before Busy, or as above.
fn carry_out(
    state: &mut [u8],
    index: u64,
    code: u64,
    ps: &[u8],
    reply: &mut [u8],
    d: Decision,
    old: Settings,
    new: Settings,
) -> Answer
    requires { Ready state.old index × (Lengths.reply_buffer ≤ length reply.old) × (0 < code) × (code < 65536) × (d ≡ Wait → length ps.now ≤ 3)
        × (old ≡ settings_of (controller_of state.old index)) }
    ensures { CarriesOut state.old index code ps.now d old new result reply.old reply.new state.new }
{
    match d {
        Decision::Refuse(status) => replies::refuse(reply, index, code, status),
        _ => unless_busy(state, index, code, ps, reply, d, old, new),
    }
}

// 0x0005 Set Powered.
pub fn set_powered(state: &mut [u8], index: u64, ps: &[u8], reply: &mut [u8]) -> Answer
    requires { Ready state.old index × (Lengths.reply_buffer ≤ length reply.old) }
    ensures { Gives (radio_command state.old index Codes.set_powered ps.now set_powered) result reply.old reply.new
        state.new }
{
    if ps.len() != 1 {
        return replies::refuse(
            reply,
            index,
            codes::SET_POWERED,
            statuses::INVALID_PARAMETERS,
        );
    }
    let old = layout::settings_at(state, index);
    let d = rules::decide_powered(old.radio, ps);
    let new = rules::effects::effect_powered(old, ps);
    carry_out(state, index, codes::SET_POWERED, ps, reply, d, old, new)
}

// 0x0006 Set Discoverable.
pub fn set_discoverable(state: &mut [u8], index: u64, ps: &[u8], reply: &mut [u8]) -> Answer
    requires { Ready state.old index × (Lengths.reply_buffer ≤ length reply.old) }
    ensures { Gives (radio_command state.old index Codes.set_discoverable ps.now set_discoverable) result reply.old
        reply.new state.new }
{
    if ps.len() != 3 {
        return replies::refuse(
            reply,
            index,
            codes::SET_DISCOVERABLE,
            statuses::INVALID_PARAMETERS,
        );
    }
    let old = layout::settings_at(state, index);
    let d = rules::decide_discoverable(old.radio, ps);
    let new = rules::effects::effect_discoverable(old, ps);
    carry_out(
        state,
        index,
        codes::SET_DISCOVERABLE,
        ps,
        reply,
        d,
        old,
        new,
    )
}

// 0x0007 Set Connectable.
pub fn set_connectable(state: &mut [u8], index: u64, ps: &[u8], reply: &mut [u8]) -> Answer
    requires { Ready state.old index × (Lengths.reply_buffer ≤ length reply.old) }
    ensures { Gives (radio_command state.old index Codes.set_connectable ps.now set_connectable) result reply.old
        reply.new state.new }
{
    if ps.len() != 1 {
        return replies::refuse(
            reply,
            index,
            codes::SET_CONNECTABLE,
            statuses::INVALID_PARAMETERS,
        );
    }
    let old = layout::settings_at(state, index);
    let d = rules::decide_connectable(old.radio, ps);
    let new = rules::effects::effect_connectable(old, ps);
    carry_out(state, index, codes::SET_CONNECTABLE, ps, reply, d, old, new)
}

// 0x000D Set Low Energy.
pub fn set_low_energy(state: &mut [u8], index: u64, ps: &[u8], reply: &mut [u8]) -> Answer
    requires { Ready state.old index × (Lengths.reply_buffer ≤ length reply.old) }
    ensures { Gives (radio_command state.old index Codes.set_low_energy ps.now set_low_energy) result reply.old reply.new
        state.new }
{
    if ps.len() != 1 {
        return replies::refuse(
            reply,
            index,
            codes::SET_LOW_ENERGY,
            statuses::INVALID_PARAMETERS,
        );
    }
    let old = layout::settings_at(state, index);
    let d = rules::decide_low_energy(old.radio, ps);
    let new = rules::effects::effect_low_energy(old, ps);
    carry_out(state, index, codes::SET_LOW_ENERGY, ps, reply, d, old, new)
}

// 0x002A Set BR/EDR.
pub fn set_bredr(state: &mut [u8], index: u64, ps: &[u8], reply: &mut [u8]) -> Answer
    requires { Ready state.old index × (Lengths.reply_buffer ≤ length reply.old) }
    ensures { Gives (radio_command state.old index Codes.set_bredr ps.now set_bredr) result reply.old reply.new
        state.new }
{
    if ps.len() != 1 {
        return replies::refuse(reply, index, codes::SET_BREDR, statuses::INVALID_PARAMETERS);
    }
    let old = layout::settings_at(state, index);
    let d = rules::decide_bredr(old.radio, ps);
    let new = rules::effects::effect_bredr(old, ps);
    carry_out(state, index, codes::SET_BREDR, ps, reply, d, old, new)
}

// 0x002B Set Static Address.
pub fn set_static_address(state: &mut [u8], index: u64, ps: &[u8], reply: &mut [u8]) -> Answer
    requires { Ready state.old index × (Lengths.reply_buffer ≤ length reply.old) }
    ensures { Gives (radio_command state.old index Codes.set_static_address ps.now set_static_address) result reply.old
        reply.new state.new }
{
    if ps.len() != 6 {
        return replies::refuse(
            reply,
            index,
            codes::SET_STATIC_ADDRESS,
            statuses::INVALID_PARAMETERS,
        );
    }
    let old = layout::settings_at(state, index);
    let d = rules::decide_static_address(old.radio, ps);
    let new = rules::effects::effect_static_address(old, ps);
    carry_out(
        state,
        index,
        codes::SET_STATIC_ADDRESS,
        ps,
        reply,
        d,
        old,
        new,
    )
}

// The report

// What a command under way, with its parameters at a place of the state, makes of the settings `old`.
fn acted_settings(state: &[u8], at: usize, code: u64, old: Settings) -> Settings
    requires { at + 3 ≤ length state.now }
    ensures { Makes code state.now at old result }
{
    match code {
        codes::SET_POWERED => rules::effects::effect_powered(old, &state[at..at + 1]),
        codes::SET_DISCOVERABLE => rules::effects::effect_discoverable(old, &state[at..at + 3]),
        codes::SET_CONNECTABLE => rules::effects::effect_connectable(old, &state[at..at + 1]),
        codes::SET_LOW_ENERGY => rules::effects::effect_low_energy(old, &state[at..at + 1]),
        _ => rules::effects::effect_bredr(old, &state[at..at + 1]),
    }
}

// The command under way acts, on the settings as they are now, and is under way no more.
fn finish(state: &mut [u8], index: u64, code: u64, reply: &mut [u8]) -> Answer
    requires { Ready state.old index × (Lengths.reply_buffer ≤ length reply.old) × (code ≡ u16 state.old (place_of index 1)) × (code ≡ 0 → ⊥) }
    ensures { Gives (reported state.old index 0) result reply.old reply.new state.new }
{
    let old = layout::settings_at(state, index);
    let at = layout::open_place(index) + 2;
    let new = acted_settings(state, at, code, old);
    layout::clear_open(state, index);
    apply(state, index, code, reply, old, new)
}

// The radio reports on the command under way at index: status 0, it acts; 0x01 to 0x14, it failed.
pub fn report(state: &mut [u8], index: u64, status: u64, reply: &mut [u8]) -> Answer
    requires { (state_ok state.old ≡ true) × (length state.old ≡ Lengths.state) × (Lengths.reply_buffer ≤ length reply.old) }
    ensures { Gives (reported state.old index status) result reply.old reply.new state.new }
{
    if !layout::present(state, index) {
        return Answer::BadArgument;
    }
    let code = layout::open_code(state, index);
    if code == 0 || statuses::HIGHEST < status {
        return Answer::BadArgument;
    }
    if status == 0 {
        return finish(state, index, code, reply);
    }
    replies::command_status(reply, 0, index, code, status as u8);
    layout::clear_open(state, index);
    Answer::Done(9)
}
