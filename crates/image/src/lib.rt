// The image that save writes of a state, of version 2. Numbers stand high octet first; addresses, names and records stand as in packets.
#![tactic(auto)]

ghost use Rattle.std.specs.Prelude.{◌≡◌, true, ◌+◌, ◌*◌, ◌≤◌, ◌<◌, map, length};
ghost use Rattle.model.specs.Lengths as Lengths;
ghost use Rattle.model.specs.Octets.{joined};
ghost use Rattle.model.specs.State.{name_part};
ghost use Rattle.model.specs.Hub.{save_out};
ghost use Rattle.model.specs.declared.Version.TheVariants.{Two};
ghost use Rattle.model.specs.Image.{controller_image, name_image, table_image};
ghost use Rattle.model.specs.Layout.{decode};
ghost use Rattle.model.specs.Meanings.{state_ok};
ghost use Rattle.image.specs.Images.{fixed_image, flags_in, numbers_image};
ghost use Rattle.layout.specs.Places.{Ready, controller_of};
ghost use Rattle.octets.specs.Parts.{write_at};
ghost use Rattle.outcomes.specs.Outcomes.{ended};
ghost use Rattle.replies.specs.Answers.{Gives};
ghost use Rattle.table.specs.Slots.{table_at};

use model::{Answer, Settings};

// Writes the image of a table at a place: how many records it has, and the records in slot order. Gives the place behind it.
fn save_records(state: &[u8], at: usize, size: usize, out: &mut [u8], place: usize) -> usize
    requires { (at + (4 + size * 32) ≤ length state.now) × (place + (1 + size * 32) ≤ length out.old) }
    ensures { (result ≡ place + length (table_image (table_at state.now at size))) × (result ≤ place + (1 + size * 32))
        × (out.new ≡ write_at out.old place (table_image (table_at state.now at size))) }
{
    octets::put8(out, place, table::used(state, at) as u8);
    let mut p = place + 1;
    let mut from = 0;
    while let Some(slot) = table::next_used(state, at, from) {
        let record = at + (4 + size * slot);
        octets::copy_into(out, p, &state[record..record + size]);
        p += size;
        from = slot + 1;
    }
    p
}

// Writes the images of the six tables of the controller at an index. Gives the place behind them.
fn save_tables(state: &[u8], index: u64, out: &mut [u8], place: usize) -> usize
    requires { Ready state.now index × (place + 3718 ≤ length out.old) }
    ensures { (result ≡ place + length (joined (map table_image (controller_of state.now index).host.tables))) × (result ≤ place + 3718)
        × (out.new ≡ write_at out.old place (joined (map table_image (controller_of state.now index).host.tables))) }
{
    let mut p = place;
    for k in 0..6 {
        let at = layout::table_place(index, k);
        p = save_records(state, at, records::size_of(k), out, p);
    }
    p
}

// The flags that the image keeps: connectable, bondable, BR/EDR, Low Energy.
#[tactic(auto, unfolding(crate::specs::Images::flags_in))]
fn flags_of(m: Settings) -> u64
    ensures { result ≡ flags_in m }
{
    rules::flag_word(
        m.radio.connectable,
        m.host.bondable,
        m.radio.bredr,
        m.radio.low_energy,
    )
}

// The numbers of a controller, as they lie in the image.
fn numbers(m: Settings) -> [u8; 11]
    ensures { result ≡ numbers_image m }
{
    let f = m.radio.hardware;
    let a = f.manufacturer.to_be_bytes();
    let s = f.supported.to_be_bytes();
    let g = (flags_of(m) as u32).to_be_bytes();
    [
        f.version, a[0], a[1], s[0], s[1], s[2], s[3], g[0], g[1], g[2], g[3],
    ]
}

// Writes the fixed part of a controller's image but for the names, 24 octets.
fn save_fixed(m: Settings, index: u64, out: &mut [u8], place: usize)
    requires { (index < 4) × (place + 24 ≤ length out.old) }
    ensures { out.new ≡ write_at out.old place (fixed_image index m) }
{
    octets::copy_into(out, place + 18, &m.radio.static_address);
    octets::copy_into(out, place + 1, &m.radio.hardware.public_address);
    octets::copy_into(out, place + 7, &numbers(m));
    octets::put8(out, place, index as u8);
}

// Writes a name of the controller at an index, the short name where `which` is not 0: the length of its used part, then that part. Gives the place
// behind it.
fn save_name(state: &[u8], index: u64, which: u64, out: &mut [u8], place: usize) -> usize
    requires { (length state.now ≡ Lengths.state) × (index < 4) × (place + 250 ≤ length out.old) }
    ensures { (result ≡ place + length (name_image Two (name_part which (controller_of state.now index).host.name))) × (result ≤ place + 250)
        × (out.new ≡ write_at out.old place (name_image Two (name_part which (controller_of state.now index).host.name))) }
{
    let used = layout::used_name(state, index, which);
    octets::put8(out, place, used.len() as u8);
    octets::copy_into(out, place + 1, used);
    place + 1 + used.len()
}

// Writes the image of the controller at an index. Gives the place behind it.
fn save_controller(state: &[u8], index: u64, out: &mut [u8], place: usize) -> usize
    requires { Ready state.now index × (place + 4002 ≤ length out.old) }
    ensures { (result ≡ place + length (controller_image Two index (controller_of state.now index))) × (result ≤ place + 4002)
        × (out.new ≡ write_at out.old place (controller_image Two index (controller_of state.now index))) }
{
    let m = layout::settings_at(state, index);
    save_fixed(m, index, out, place);
    let short = save_name(state, index, 0, out, place + 24);
    let tables = save_name(state, index, 1, out, short);
    save_tables(state, index, out, tables)
}

// Saves the state: the images of the controllers in ascending order, then the head before them, which says how long all is and how many there are.
pub fn save(state: &[u8], out: &mut [u8]) -> Answer
    requires { (state_ok state.now ≡ true) × (Lengths.largest_image ≤ length out.old) }
    ensures { Gives (ended state.now (save_out (decode state.now).plain)) result out.old out.new state.now }
{
    let mut place: usize = 6;
    let mut count: u8 = 0;
    for index in 0..4 {
        if layout::present(state, index) {
            place = save_controller(state, index, out, place);
            count += 1;
        }
    }
    octets::put_be32(out, 0, place as u64);
    octets::put8(out, 4, 2);
    octets::put8(out, 5, count);
    Answer::Done(place)
}
