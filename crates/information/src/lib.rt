// The commands that tell of the hub and of a controller: version, commands, indexes, controller information; the names, which are set and told here; and where
// a record stands.
#![tactic(auto)]

ghost use Rattle.std.specs.Prelude.{◌≡◌, true, ◌+◌, ◌≤◌, ◌<◌, length, ◌&&◌, eqb, ltb};
ghost use Rattle.model.specs.Codes as Codes;
ghost use Rattle.model.specs.Lengths as Lengths;
ghost use Rattle.model.specs.Commands.{read_version, read_commands, read_indexes, words};
ghost use Rattle.model.specs.Layout.{decode};
ghost use Rattle.model.specs.Meanings.{state_ok};
ghost use Rattle.octets.specs.Parts.{write_at};
ghost use Rattle.replies.specs.Answers.{Gives};
ghost use Rattle.outcomes.specs.Outcomes.{general_command};
ghost use Rattle.information.specs.General.{Reply, listed};
ghost use Rattle.information.specs.Controller.{information_head, information_of};
ghost use Rattle.model.specs.Immediate.{read_information, set_local_name};
ghost use Rattle.layout.specs.Places.{Ready, controller_of};
ghost use Rattle.outcomes.specs.Outcomes.{name_read, immediate_command};
ghost use Rattle.model.specs.LookUp.{key_length};
ghost use Rattle.model.specs.Meanings.{look_up_out, refused_look_up};
ghost use Rattle.model.specs.State.{controller_at};
ghost use Rattle.information.specs.LookUp.{LooksUp};

use model::{Answer, Hardware, LookUp, LookUpReply, codes, events, statuses};

// What Read Commands returns: the counts, 22 and 12, then the codes of the commands and of the events, two octets each.
const COMMANDS: [u8; 72] = [
    22, 0, 12, 0, 0x03, 0, 0x04, 0, 0x05, 0, 0x06, 0, 0x07, 0, 0x09, 0, 0x0D, 0, 0x0F, 0, 0x10, 0,
    0x11, 0, 0x12, 0, 0x13, 0, 0x1B, 0, 0x26, 0, 0x27, 0, 0x2A, 0, 0x2B, 0, 0x30, 0, 0x33, 0, 0x34,
    0, 0x3E, 0, 0x3F, 0, 0x04, 0, 0x05, 0, 0x06, 0, 0x07, 0, 0x08, 0, 0x14, 0, 0x15, 0, 0x16, 0,
    0x1A, 0, 0x1B, 0, 0x23, 0, 0x24, 0,
];

// A general command whose return parameters are `body`: the index is 0xFFFF and there are no parameters, else it is refused.
fn general_reply(index: u64, code: u64, ps: &[u8], body: &[u8], reply: &mut [u8]) -> Answer
    requires { (Lengths.reply_buffer ≤ length reply.old) × (length body.now ≤ 1000) }
    ensures { Reply index code ps.now body.now result reply.old reply.new }
{
    if index != 0xFFFF {
        return replies::refuse(reply, index, code, statuses::INVALID_INDEX);
    }
    if !ps.is_empty() {
        return replies::refuse(reply, index, code, statuses::INVALID_PARAMETERS);
    }
    replies::command_complete(reply, 0, index, code, 0, body);
    Answer::Done(9 + body.len())
}

// 0x0001 Read Version: version 1, revision 10.
pub fn read_version(state: &[u8], index: u64, ps: &[u8], reply: &mut [u8]) -> Answer
    requires { (state_ok state.now ≡ true) × (Lengths.reply_buffer ≤ length reply.old) }
    ensures { Gives (general_command state.now index Codes.read_version ps.now read_version) result reply.old reply.new
        state.now }
{
    general_reply(index, codes::READ_VERSION, ps, &[1, 10, 0], reply)
}

// 0x0002 Read Commands: 22 commands and 12 events, then their codes, two octets each.
pub fn read_commands(state: &[u8], index: u64, ps: &[u8], reply: &mut [u8]) -> Answer
    requires { (state_ok state.now ≡ true) × (Lengths.reply_buffer ≤ length reply.old) }
    ensures { Gives (general_command state.now index Codes.read_commands ps.now read_commands) result reply.old reply.new
        state.now }
{
    general_reply(index, codes::READ_COMMANDS, ps, &COMMANDS, reply)
}

// Writes index i at the place `at` if it holds a controller. Returns the place behind.
fn list_index(state: &[u8], i: u64, out: &mut [u8], at: usize) -> usize
    requires { (length state.now ≡ Lengths.state) × (at + 2 ≤ length out.old) }
    ensures { (result ≡ at + length (words (listed state.now i))) × (result ≤ at + 2)
        × (out.new ≡ write_at out.old at (words (listed state.now i))) }
{
    if layout::present(state, i) {
        octets::put16(out, at, i);
        return at + 2;
    }
    at
}

// Writes the count of the present indexes and the indexes, ascending. Returns the count of octets.
fn list_indexes(state: &[u8], out: &mut [u8]) -> usize
    requires { (length state.now ≡ Lengths.state) × (length out.old ≡ 10) }
    ensures { (result ≡ length (read_indexes (decode state.now).plain)) × (result ≤ 10)
        × (out.new ≡ write_at out.old 0 (read_indexes (decode state.now).plain)) }
{
    let mut end = 2;
    for i in 0..4 {
        end = list_index(state, i, out, end);
    }
    octets::put16(out, 0, ((end - 2) / 2) as u64);
    end
}

// 0x0003 Read Indexes: the indexes that hold a controller, ascending.
pub fn read_indexes(state: &[u8], index: u64, ps: &[u8], reply: &mut [u8]) -> Answer
    requires { (state_ok state.now ≡ true) × (Lengths.reply_buffer ≤ length reply.old) }
    ensures { Gives (general_command state.now index Codes.read_indexes ps.now read_indexes) result reply.old reply.new
        state.now }
{
    let mut body: [u8; 10] = [0; 10];
    let n = list_indexes(state, &mut body);
    general_reply(index, codes::READ_INDEXES, ps, &body[..n], reply)
}

// 0x000F Set Local Name: name and short name, each with a zero at its end. Local Name Changed only if an octet changed.
pub fn set_local_name(state: &mut [u8], index: u64, ps: &[u8], reply: &mut [u8]) -> Answer
    requires { Ready state.old index × (Lengths.reply_buffer ≤ length reply.old) }
    ensures { Gives (immediate_command state.old index Codes.set_local_name ps.now set_local_name) result reply.old
        reply.new state.new }
{
    if ps.len() != 260 || ps[248] != 0 || ps[259] != 0 {
        return replies::refuse(
            reply,
            index,
            codes::SET_LOCAL_NAME,
            statuses::INVALID_PARAMETERS,
        );
    }
    let place = layout::name_place(index);
    let kept = octets::same_part(ps, 0, state, place, 260);
    layout::put_name(state, index, ps);
    replies::command_complete(reply, 0, index, codes::SET_LOCAL_NAME, 0, ps);
    if kept {
        return Answer::Done(269);
    }
    replies::event(reply, 269, events::LOCAL_NAME_CHANGED, index, ps);
    Answer::Done(535)
}

// The name of the controller at an index, 0, or its short name, 1, as far as it is used: the one copy is that into the reply.
pub fn tell_name(state: &[u8], index: u64, which: u64, reply: &mut [u8]) -> Answer
    requires { (state_ok state.now ≡ true) × (Lengths.reply_buffer ≤ length reply.old) }
    ensures { Gives (name_read state.now index which) result reply.old reply.new state.now }
{
    if layout::present(state, index) && which < 2 {
        let name = layout::used_name(state, index, which);
        octets::copy_into(reply, 0, name);
        return Answer::Done(name.len());
    }
    Answer::BadArgument
}

// How many octets a record of table k is looked for by.
fn key_length(k: u64) -> usize
    ensures { result ≡ key_length k }
{
    if k == 0 { 16 } else { 7 }
}

// Whether k is one of the six tables, and the key as long as that table's keys are.
fn asked_well(k: u64, key: &[u8]) -> bool
    ensures { result ≡ (ltb k 6 && eqb (length key.now) (key_length k)) }
{
    k < 6 && key.len() == key_length(k)
}

// The look-up of a key in table k of the controller at an index: the one that the commands make.
fn look_up_in(state: &[u8], index: u64, k: usize, key: &[u8]) -> LookUp
    requires { Ready state.now index × (k < 6) × (length key.now ≡ key_length k) }
    ensures { LooksUp state.now index k key.now result }
{
    table::look_up(
        state,
        layout::table_place(index, k),
        records::size_of(k),
        key,
    )
}

// A look-up that is refused: the number of the answer.
pub fn refused_look_up(a: Answer) -> LookUpReply
    ensures { result ≡ refused_look_up a }
{
    LookUpReply {
        answer: replies::number(a),
        extra: 0,
    }
}

// Where a record stands, told to the host: slot and slots walked in one number. Nothing is written.
pub fn look_up(state: &[u8], index: u64, table: u64, key: &[u8]) -> LookUpReply
    requires { state_ok state.now ≡ true }
    ensures { result ≡ look_up_out table key.now (controller_at (decode state.now).plain index) }
{
    if layout::present(state, index) && asked_well(table, key) {
        let u = look_up_in(state, index, table as usize, key);
        return LookUpReply {
            answer: 0,
            extra: (u.slot + 256 * u.walked) as u64,
        };
    }
    refused_look_up(Answer::BadArgument)
}

// Version, manufacturer, supported and current settings, and the class with these hints: what stands between the address and the name.
fn information_head(f: Hardware, current: u64, hints: u8) -> [u8; 14]
    ensures { result ≡ information_head f current hints }
{
    let h = layout::hardware_head(f);
    let settings = current.to_le_bytes();
    [
        h[0],
        h[1],
        h[2],
        h[3],
        h[4],
        h[5],
        h[6],
        settings[0],
        settings[1],
        settings[2],
        settings[3],
        0,
        0,
        hints,
    ]
}

// Writes what is told of the controller at an index.
fn put_information(state: &[u8], index: u64, out: &mut [u8])
    requires { Ready state.now index × (length out.old ≡ 280) }
    ensures { out.new ≡ information_of (controller_of state.now index) }
{
    let hardware = layout::hardware_at(state, index);
    let current = rules::current_settings(layout::settings_at(state, index));
    let hints = table::or_octets(state, layout::table_place(index, 0), 17, 16);
    let name = layout::name_place(index);
    octets::copy_into(out, 0, &hardware.public_address);
    octets::copy_into(out, 6, &information_head(hardware, current, hints));
    octets::copy_into(out, 20, &state[name..name + 260]);
}

// 0x0004 Read Controller Information, 280 octets; the state is only read.
pub fn read_information(state: &[u8], index: u64, ps: &[u8], reply: &mut [u8]) -> Answer
    requires { Ready state.now index × (Lengths.reply_buffer ≤ length reply.old) }
    ensures { Gives (immediate_command state.now index Codes.read_information ps.now read_information) result reply.old
        reply.new state.now }
{
    if !ps.is_empty() {
        return replies::refuse(
            reply,
            index,
            codes::READ_INFORMATION,
            statuses::INVALID_PARAMETERS,
        );
    }
    let mut body: [u8; 280] = [0; 280];
    put_information(state, index, &mut body);
    replies::command_complete(reply, 0, index, codes::READ_INFORMATION, 0, &body);
    Answer::Done(289)
}
