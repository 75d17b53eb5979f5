// The hub: the order of a call, and the fourteen functions that C calls: 01's seven, one that takes octets off a serial line, four that only read: one
// tells a name, one what is on air, one why a packet would be refused, and one where a record stands; and two that move an image from one version to the
// other.
#![tactic(auto)]

ghost use Rattle.std.specs.Prelude.{◌≡◌, ◌+◌, ◌*◌, ◌^◌, ◌≤◌, ◌<◌, ◌++◌, length, true};
ghost use Rattle.model.specs.Lengths as Lengths;
ghost use Rattle.model.specs.Hub as Hub;
ghost use Rattle.model.specs.Meanings.{state_ok, meaning, hub_command, hub_report, hub_clock, hub_plug, hub_unplug, hub_save, hub_load, hub_look_up, hub_name, hub_on_air, hub_stream};
ghost use Rattle.model.specs.Moves.{hub_downgrade, hub_upgrade};
ghost use Rattle.model.specs.Answers.{count_of, offset_of};
ghost use Rattle.replies.specs.Answers.{Gives};
ghost use Rattle.model.specs.Layout.{decode, line_cleared};
ghost use Rattle.model.specs.Stream.{grown, length_said, packet_in};
ghost use Rattle.why.specs.Findings.{why};
ghost use Rattle.why.specs.Meaning.{hub_why, text_buffer, told};
ghost use Rattle.hub.specs.Entries.{packed, look_up_number, Explains, Returns, ReturnsLoaded, ReturnsMoved, ReturnsTaken, Takes};

use model::{Answer, LookUpReply, lengths};
use why::Objection;

// Whether a packet has a header, and as many octets behind it as the header says.
fn packet_ok(packet: &[u8]) -> bool
    ensures { result ≡ Hub.packet_ok packet.now }
{
    6 <= packet.len() && octets::u16_at(packet, 4) == (packet.len() - 6) as u64
}

// What came of a lump: the answer, and how many of its octets were taken.
#[derive(Clone, Copy)]
pub struct LumpAnswer {
    pub answer: Answer,
    pub taken: usize,
}

// An answer and its count in one number.
fn pack(a: Answer) -> u64
    requires { count_of a ≤ Lengths.largest_image }
    ensures { result ≡ packed a }
{
    replies::number(a) + 256 * replies::count(a) as u64
}

// The same with the offset of a fault in the upper half.
fn pack_offset(a: Answer) -> u64
    requires { (count_of a ≤ Lengths.largest_image) × (offset_of a < 2 ^ 32) }
    ensures { result ≡ packed a + 2 ^ 32 * offset_of a }
{
    pack(a) + 0x100000000 * replies::offset(a) as u64
}

// A whole packet, on a well-formed state and with room for a reply: the function that serves its code.
fn serve(state: &mut [u8], packet: &[u8], reply: &mut [u8]) -> Answer
    requires { (state_ok state.old ≡ true) × (length state.old ≡ Lengths.state) × (Hub.packet_ok packet.now ≡ true)
        × (Lengths.reply_buffer ≤ length reply.old) }
    ensures { Gives (meaning state.old (Hub.command (length reply.old) packet.now)) result reply.old
        reply.new state.new }
{
    let code = octets::u16_at(packet, 0);
    let index = octets::u16_at(packet, 2);
    dispatch::dispatch(state, index, code, &packet[6..], reply)
}

// A command packet: state, room, frame, then what serves it.
fn command(state: &mut [u8], packet: &[u8], reply: &mut [u8]) -> Answer
    ensures { Gives (meaning state.old (Hub.command (length reply.old) packet.now)) result reply.old
        reply.new state.new }
{
    if !checks::well_formed(state) {
        return Answer::BadState;
    }
    if reply.len() < lengths::REPLY_BUFFER {
        return Answer::SmallBuffer;
    }
    if !packet_ok(packet) {
        return Answer::BadPacket;
    }
    serve(state, packet, reply)
}

// The last octets of a packet that was waiting: it is put together beside the state, and served, or refused by its head where it is too long to be kept.
fn finish(state: &mut [u8], said: usize, lump: &[u8], reply: &mut [u8]) -> Answer
    requires { (state_ok state.old ≡ true) × (length state.old ≡ Lengths.state)
        × (said ≡ length_said ((decode state.old).waiting.kept ++ lump.now)) × ((decode state.old).waiting.taken + length lump.now ≡ said)
        × (Lengths.reply_buffer ≤ length reply.old) }
    ensures { Gives (meaning (line_cleared state.old)
        (Hub.command (length reply.old) (packet_in (grown (decode state.old).waiting lump.now))))
        result reply.old reply.new state.new }
{
    let mut packet: [u8; 1160] = [0; 1160];
    layout::waiting::gather(&mut packet, state, said, lump);
    layout::waiting::clear(state);
    if said <= lengths::LONGEST_KEPT {
        return serve(state, &packet[..said], reply);
    }
    let code = octets::u16_at(&packet, 0);
    let index = octets::u16_at(&packet, 2);
    dispatch::long::refuse(state, index, code, said - 6, &packet[6..10], reply)
}

// A lump, with room for a reply: its octets up to the end of the packet that is coming in. A packet that lies whole in it, with nothing waiting, is
// served where it lies.
fn take_in(state: &mut [u8], lump: &[u8], reply: &mut [u8]) -> LumpAnswer
    requires { (state_ok state.old ≡ true) × (length state.old ≡ Lengths.state) × (Lengths.reply_buffer ≤ length reply.old) }
    ensures { Takes (hub_stream state.old lump.now (length reply.old)) result reply.old reply.new
        state.new }
{
    let said = layout::waiting::length_said(state, lump);
    let left = said - layout::waiting::taken(state);
    if lump.len() < left {
        layout::waiting::grow(state, said, lump);
        return LumpAnswer {
            answer: Answer::Incomplete,
            taken: lump.len(),
        };
    }
    if left == said {
        let answer = serve(state, &lump[..said], reply);
        return LumpAnswer {
            answer,
            taken: said,
        };
    }
    let answer = finish(state, said, &lump[..left], reply);
    LumpAnswer {
        answer,
        taken: left,
    }
}

// A lump that is refused: none of its octets is taken.
fn untaken(answer: Answer) -> LumpAnswer
    ensures { result ≡ record { answer = answer; taken = 0 } }
{
    LumpAnswer { answer, taken: 0 }
}

// Octets off the serial line: state, room, then those that are taken.
fn stream(state: &mut [u8], lump: &[u8], reply: &mut [u8]) -> LumpAnswer
    ensures { Takes (hub_stream state.old lump.now (length reply.old)) result reply.old reply.new
        state.new }
{
    if !checks::well_formed(state) {
        return untaken(Answer::BadState);
    }
    if reply.len() < lengths::REPLY_BUFFER {
        return untaken(Answer::SmallBuffer);
    }
    take_in(state, lump, reply)
}

// A report of the radio.
fn report(state: &mut [u8], index: u64, status: u64, reply: &mut [u8]) -> Answer
    ensures { Gives (meaning state.old (Hub.report (length reply.old) index status)) result reply.old reply.new
        state.new }
{
    if !checks::well_formed(state) {
        return Answer::BadState;
    }
    if reply.len() < lengths::REPLY_BUFFER {
        return Answer::SmallBuffer;
    }
    settings::report(state, index, status, reply)
}

// A reading of the clock.
fn clock(state: &mut [u8], reading: u32, reply: &mut [u8]) -> Answer
    ensures { Gives (meaning state.old (Hub.clock (length reply.old) reading)) result reply.old reply.new
        state.new }
{
    if !checks::well_formed(state) {
        return Answer::BadState;
    }
    if reply.len() < lengths::REPLY_BUFFER {
        return Answer::SmallBuffer;
    }
    calls::clock(state, reading, reply)
}

// A controller is plugged in.
fn plug(
    state: &mut [u8],
    index: u64,
    address: &[u8],
    version: u8,
    manufacturer: u16,
    supported: u32,
    reply: &mut [u8],
) -> Answer
    ensures { Gives (meaning state.old (Hub.plug (length reply.old) index
        (record { public_address = address.now; version = version; manufacturer = manufacturer; supported = supported }))) result
        reply.old reply.new state.new }
{
    if !checks::well_formed(state) {
        return Answer::BadState;
    }
    if reply.len() < lengths::REPLY_BUFFER {
        return Answer::SmallBuffer;
    }
    calls::plug(
        state,
        index,
        address,
        version,
        manufacturer,
        supported,
        reply,
    )
}

// A controller is gone.
fn unplug(state: &mut [u8], index: u64, reply: &mut [u8]) -> Answer
    ensures { Gives (meaning state.old (Hub.unplug (length reply.old) index)) result reply.old reply.new state.new }
{
    if !checks::well_formed(state) {
        return Answer::BadState;
    }
    if reply.len() < lengths::REPLY_BUFFER {
        return Answer::SmallBuffer;
    }
    calls::unplug(state, index, reply)
}

// The image of the state.
fn save(state: &[u8], reply: &mut [u8]) -> Answer
    ensures { Gives (meaning state.now (Hub.save (length reply.old))) result reply.old reply.new state.now }
{
    if !checks::well_formed(state) {
        return Answer::BadState;
    }
    if reply.len() < lengths::LARGEST_IMAGE {
        return Answer::SmallBuffer;
    }
    image::save(state, reply)
}

// The used part of a name.
fn name(state: &[u8], index: u64, which: u64, reply: &mut [u8]) -> Answer
    ensures { Gives (hub_name state.now index which (length reply.old)) result reply.old reply.new state.now }
{
    if !checks::well_formed(state) {
        return Answer::BadState;
    }
    if reply.len() < lengths::REPLY_BUFFER {
        return Answer::SmallBuffer;
    }
    information::tell_name(state, index, which, reply)
}

// What is on air at an index.
fn on_air(state: &[u8], index: u64, reply: &mut [u8]) -> Answer
    ensures { Gives (hub_on_air state.now index (length reply.old)) result reply.old reply.new state.now }
{
    if !checks::well_formed(state) {
        return Answer::BadState;
    }
    if reply.len() < lengths::REPLY_BUFFER {
        return Answer::SmallBuffer;
    }
    advertising::on_air(state, index, reply)
}

// What is found of a packet.
fn found(state: &[u8], packet: &[u8]) -> Result<(), Objection>
    requires { (state_ok state.now ≡ true) × (Hub.packet_ok packet.now ≡ true) }
    ensures { result ≡ why (decode state.now) packet.now }
{
    let code = octets::u16_at(packet, 0);
    let index = octets::u16_at(packet, 2);
    explain::find(state, index, code, &packet[6..])
}

// What is found, in words, and the status in the upper half of the number.
fn tell(text: &mut [u8], f: Result<(), Objection>) -> u64
    requires { text_buffer ≤ length text.old }
    ensures { Explains (told f) result text.old text.new }
{
    let count = wording::write_text(text, f);
    let status = wording::status(f) as u64;
    pack(Answer::Done(count)) + 0x100000000 * status
}

// Where a record stands.
fn look_up(state: &[u8], index: u64, table: u64, key: &[u8]) -> LookUpReply
    ensures { result ≡ hub_look_up state.now index table key.now }
{
    if !checks::well_formed(state) {
        return information::refused_look_up(Answer::BadState);
    }
    information::look_up(state, index, table, key)
}

// C's call of a command.
#[unsafe(no_mangle)]
pub extern "C" fn hub_command(state: &mut [u8], packet: &[u8], reply: &mut [u8]) -> u64
    ensures { Returns (hub_command state.old packet.now (length reply.old)) result reply.old reply.new
        state.new }
{
    pack(command(state, packet, reply))
}

// C's call of octets off the serial line.
#[unsafe(no_mangle)]
pub extern "C" fn hub_stream(state: &mut [u8], octets: &[u8], reply: &mut [u8]) -> u64
    ensures { ReturnsTaken (hub_stream state.old octets.now (length reply.old)) result reply.old reply.new
        state.new }
{
    let a = stream(state, octets, reply);
    pack(a.answer) + 0x100000000 * a.taken as u64
}

// C's call of a report.
#[unsafe(no_mangle)]
pub extern "C" fn hub_report(state: &mut [u8], index: u64, status: u64, reply: &mut [u8]) -> u64
    ensures { Returns (hub_report state.old index status (length reply.old)) result reply.old reply.new state.new }
{
    pack(report(state, index, status, reply))
}

// C's call of a clock reading.
#[unsafe(no_mangle)]
pub extern "C" fn hub_clock(state: &mut [u8], reading: u32, reply: &mut [u8]) -> u64
    ensures { Returns (hub_clock state.old reading (length reply.old)) result reply.old reply.new state.new }
{
    pack(clock(state, reading, reply))
}

// C's call of a plug.
#[unsafe(no_mangle)]
pub extern "C" fn hub_plug(
    state: &mut [u8],
    index: u64,
    address: &[u8],
    version: u8,
    manufacturer: u16,
    supported: u32,
    reply: &mut [u8],
) -> u64
    ensures { Returns (hub_plug state.old index
        (record { public_address = address.now; version = version; manufacturer = manufacturer; supported = supported })
        (length reply.old)) result reply.old reply.new state.new }
{
    pack(plug(
        state,
        index,
        address,
        version,
        manufacturer,
        supported,
        reply,
    ))
}

// C's call of an unplug.
#[unsafe(no_mangle)]
pub extern "C" fn hub_unplug(state: &mut [u8], index: u64, reply: &mut [u8]) -> u64
    ensures { Returns (hub_unplug state.old index (length reply.old)) result reply.old reply.new state.new }
{
    pack(unplug(state, index, reply))
}

// C's call of a save.
#[unsafe(no_mangle)]
pub extern "C" fn hub_save(state: &[u8], reply: &mut [u8]) -> u64
    ensures { Returns (hub_save state.now (length reply.old)) result reply.old reply.new state.now }
{
    pack(save(state, reply))
}

// C's call of a load: nothing is written but the state.
#[unsafe(no_mangle)]
pub extern "C" fn hub_load(state: &mut [u8], image: &[u8]) -> u64
    ensures { ReturnsLoaded (hub_load state.old image.now) result state.new }
{
    pack_offset(restore::load(state, image))
}

// C's move of an image to version 2: no state is lent.
#[unsafe(no_mangle)]
pub extern "C" fn hub_upgrade(image: &[u8], out: &mut [u8]) -> u64
    ensures { ReturnsMoved (hub_upgrade image.now (length out.old)) result out.old out.new }
{
    pack_offset(moves::upgrade(image, out))
}

// C's move of an image back to version 1.
#[unsafe(no_mangle)]
pub extern "C" fn hub_downgrade(image: &[u8], out: &mut [u8]) -> u64
    ensures { ReturnsMoved (hub_downgrade image.now (length out.old)) result out.old out.new }
{
    pack_offset(moves::downgrade(image, out))
}

// C's question for a name: the state is only read.
#[unsafe(no_mangle)]
pub extern "C" fn hub_name(state: &[u8], index: u64, which: u64, reply: &mut [u8]) -> u64
    ensures { Returns (hub_name state.now index which (length reply.old)) result reply.old reply.new state.now }
{
    pack(name(state, index, which, reply))
}

// C's question what is on air: the state is only read.
#[unsafe(no_mangle)]
pub extern "C" fn hub_on_air(state: &[u8], index: u64, reply: &mut [u8]) -> u64
    ensures { Returns (hub_on_air state.now index (length reply.old)) result reply.old reply.new state.now }
{
    pack(on_air(state, index, reply))
}

// C's question why the hub would refuse a packet: the state, the room for the text, the frame, then what is found.
#[unsafe(no_mangle)]
pub extern "C" fn hub_why(state: &[u8], packet: &[u8], text: &mut [u8]) -> u64
    ensures { Explains (hub_why state.now packet.now (length text.old)) result text.old text.new }
{
    if checks::well_formed(state) {
        if why::TEXT_BUFFER <= text.len() {
            if packet_ok(packet) {
                let f = found(state, packet);
                return tell(text, f);
            }
            return pack(Answer::BadPacket);
        }
        return pack(Answer::SmallBuffer);
    }
    pack(Answer::BadState)
}

// C's question where a record stands: the state is only read, and nothing is written.
#[unsafe(no_mangle)]
pub extern "C" fn hub_look_up(state: &[u8], index: u64, table: u64, key: &[u8]) -> u64
    ensures { result ≡ look_up_number (hub_look_up state.now index table key.now) }
{
    let u = look_up(state, index, table, key);
    u.answer + 0x100000000 * u.extra
}
