// Replies and events, each written at a place of the reply buffer; and what a call answers.
#![tactic(auto)]

ghost use Rattle.std.specs.Prelude.{◌≡◌, ◌+◌, ◌≤◌, ◌∷◌, [], length, take};
ghost use Rattle.model.specs.Events as Events;
ghost use Rattle.model.specs.Octets.{le32, command_complete, command_status};
ghost use Rattle.model.specs.Octets as Octets;
ghost use Rattle.model.specs.Advertising.{removed_of, instances};
ghost use Rattle.octets.specs.Parts.{write_at};
ghost use Rattle.replies.specs.Frames as Frames;
ghost use Rattle.model.specs.Answers.{fault_number, number_of, count_of, offset_of};
ghost use Rattle.model.specs.declared.Answer.TheVariants.{Refused};

use model::{Answer, ImageFault, Schedule, events};

// The number of what is wrong with an image.
fn fault_number(fault: ImageFault) -> u64
    ensures { result ≡ fault_number fault }
{
    match fault {
        ImageFault::BadLength => 71,
        ImageFault::BadVersion => 72,
        ImageFault::BadIndex => 73,
        ImageFault::BadField => 74,
        ImageFault::BadCount => 75,
        ImageFault::BadRecord => 76,
        ImageFault::Repeated => 77,
    }
}

// The number of an answer.
pub fn number(a: Answer) -> u64
    ensures { result ≡ number_of a }
{
    match a {
        Answer::Done(_) => 0,
        Answer::Started => 1,
        Answer::Refused(_) => 2,
        Answer::BadPacket => 3,
        Answer::SmallBuffer => 4,
        Answer::BadState => 5,
        Answer::BadArgument => 6,
        Answer::BadImage(fault, _) => fault_number(fault),
        Answer::NotInImage => 8,
        Answer::Incomplete => 9,
    }
}

// The count of octets that an answer says were written.
pub fn count(a: Answer) -> usize
    ensures { result ≡ count_of a }
{
    match a {
        Answer::Done(n) | Answer::Refused(n) => n,
        _ => 0,
    }
}

// The offset of the fault of an image, 0 with any other answer.
pub fn offset(a: Answer) -> usize
    ensures { result ≡ offset_of a }
{
    match a {
        Answer::BadImage(_, at) => at,
        _ => 0,
    }
}

// The head of an event with n octets of parameters, 6 octets.
fn event_head(out: &mut [u8], at: usize, code: u64, index: u64, n: u64)
    requires { at + 6 ≤ length out.old }
    ensures { out.new ≡ write_at out.old at (Frames.event_head code index n) }
{
    octets::put16(out, at, code);
    octets::put16(out, at + 2, index);
    octets::put16(out, at + 4, n);
}

// Command Complete up to its n octets of return parameters, 9 octets.
fn complete_head(out: &mut [u8], at: usize, index: u64, code: u64, status: u8, n: usize)
    requires { at + 9 + n ≤ length out.old }
    ensures { out.new ≡ write_at out.old at (Frames.complete_head index code status n) }
{
    event_head(out, at, events::COMMAND_COMPLETE, index, (3 + n) as u64);
    octets::put16(out, at + 6, code);
    octets::put8(out, at + 8, status);
}

// Command Status, 9 octets.
pub fn command_status(out: &mut [u8], at: usize, index: u64, code: u64, status: u8)
    requires { at + 9 ≤ length out.old }
    ensures { out.new ≡ write_at out.old at (command_status index code status) }
{
    event_head(out, at, events::COMMAND_STATUS, index, 3);
    octets::put16(out, at + 6, code);
    octets::put8(out, at + 8, status);
}

// Command Complete, 9 octets and the return parameters.
pub fn command_complete(out: &mut [u8], at: usize, index: u64, code: u64, status: u8, params: &[u8])
    requires { at + 9 + length params.now ≤ length out.old }
    ensures { out.new ≡ write_at out.old at (command_complete index code status params.now) }
{
    complete_head(out, at, index, code, status, params.len());
    octets::copy_into(out, at + 9, params);
}

// An event, 6 octets and the parameters.
pub fn event(out: &mut [u8], at: usize, code: u64, index: u64, params: &[u8])
    requires { at + 6 + length params.now ≤ length out.old }
    ensures { out.new ≡ write_at out.old at (Octets.event code index params.now) }
{
    event_head(out, at, code, index, params.len() as u64);
    octets::copy_into(out, at + 6, params);
}

// New Settings, 10 octets.
pub fn new_settings(out: &mut [u8], at: usize, index: u64, word: u64)
    requires { at + 10 ≤ length out.old }
    ensures { out.new ≡ write_at out.old at (Octets.event Events.new_settings index (le32 word)) }
{
    event_head(out, at, events::NEW_SETTINGS, index, 4);
    octets::put32(out, at + 6, word);
}

// An event about the advertising instance k, 7 octets.
fn instance_event(out: &mut [u8], at: usize, code: u64, index: u64, k: u8)
    requires { at + 7 ≤ length out.old }
    ensures { out.new ≡ write_at out.old at (Octets.event code index (k ∷ [])) }
{
    event_head(out, at, code, index, 1);
    octets::put8(out, at + 6, k);
}

// Advertising Added, 7 octets.
pub fn advertising_added(reply: &mut [u8], at: usize, index: u64, k: u8)
    requires { at + 7 ≤ length reply.old }
    ensures { reply.new ≡ write_at reply.old at (Octets.event Events.advertising_added index (k ∷ [])) }
{
    instance_event(reply, at, events::ADVERTISING_ADDED, index, k);
}

// Advertising Removed, if instance k was there and no longer is: `before` and `after` are the seconds of its turn. Returns the place behind it.
fn instance_removed(
    reply: &mut [u8],
    at: usize,
    index: u64,
    k: u8,
    before: u16,
    after: u16,
) -> usize
    requires { at + 7 ≤ length reply.old }
    ensures { (result ≤ at + 7) × (result ≡ at + length (Frames.instance_removed index k before after))
        × (reply.new ≡ write_at reply.old at (Frames.instance_removed index k before after)) }
{
    if before != 0 && after == 0 {
        instance_event(reply, at, events::ADVERTISING_REMOVED, index, k);
        return at + 7;
    }
    at
}

// Advertising Removed for each instance that was there and no longer is, ascending, at most 35 octets. Returns the place behind them.
pub fn advertising_removed(
    reply: &mut [u8],
    at: usize,
    index: u64,
    before: Schedule,
    after: Schedule,
) -> usize
    requires { at + 35 ≤ length reply.old }
    ensures { (length (removed_of index before after instances) ≤ 35) × (result ≡ at + length (removed_of index before after instances))
        × (reply.new ≡ write_at reply.old at (removed_of index before after instances)) }
{
    let mut end = at;
    for k in 0..5 {
        end = instance_removed(
            reply,
            end,
            index,
            k as u8 + 1,
            before.durations[k],
            after.durations[k],
        );
    }
    end
}

// What a settings command answers when it acts: Command Complete with the settings, then New Settings if they changed. Returns the count of octets.
pub fn settings_reply(out: &mut [u8], index: u64, code: u64, old: u64, new: u64) -> usize
    requires { 23 ≤ length out.old }
    ensures { (result ≡ length (Frames.settings_reply index code old new)) × (out.new ≡ write_at out.old 0 (Frames.settings_reply index code old new)) }
{
    complete_head(out, 0, index, code, 0, 4);
    octets::put32(out, 9, new);
    if old == new {
        return 13;
    }
    new_settings(out, 13, index, new);
    23
}

// A command is refused by Command Status.
pub fn refuse(reply: &mut [u8], index: u64, code: u64, status: u8) -> Answer
    requires { 9 ≤ length reply.old }
    ensures { (result ≡ Refused 9) × (reply.new ≡ write_at reply.old 0 (command_status index code status)) }
{
    command_status(reply, 0, index, code, status);
    Answer::Refused(9)
}

// An address command is refused by Command Complete, which echoes the first seven octets of its parameters, address and type.
pub fn refuse_address(reply: &mut [u8], index: u64, code: u64, status: u8, ps: &[u8]) -> Answer
    requires { (16 ≤ length reply.old) × (7 ≤ length ps.now) }
    ensures { (result ≡ Refused 16) × (reply.new ≡ write_at reply.old 0 (command_complete index code status (take 7 ps.now))) }
{
    command_complete(reply, 0, index, code, status, &ps[..7]);
    Answer::Refused(16)
}
