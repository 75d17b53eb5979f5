// The state filled from an image that is acceptable, in either version: one controller after the other, each by its fixed part and its six tables.
#![tactic(auto)]

ghost use Rattle.std.specs.Prelude.{◌≡◌, false, true, List, [], ◌++◌, ◌+◌, ◌≤◌, ◌<◌, length, drop};
ghost use Rattle.std.proofs.Math.Option.{none, some};
ghost use Rattle.model.specs.Lengths as Lengths;
ghost use Rattle.model.specs.State.{Table, idle, with_host, with_name};
ghost use Rattle.model.specs.Tables.{table_rules};
ghost use Rattle.model.specs.Image.{padded};
ghost use Rattle.model.specs.Reading.{hub_of, items, walk};
ghost use Rattle.model.specs.Layout.{decode, encode};
ghost use Rattle.model.specs.Answers.{count_of, number_of, offset_of};
ghost use Rattle.model.specs.Meanings.{hub_load, state_ok};
ghost use Rattle.layout.specs.Places.{Ready, controller_of, open_at, present_at, put_controller};
ghost use Rattle.fields.specs.Places.{fixed_end, names_in};
ghost use Rattle.reading.specs.Contents.{Parsed, Placed, controller_in, tables_in};
ghost use Rattle.restore.specs.Filling.{NamesFit, found, length_octets, with_tables};

use model::{Answer, Version, lengths};

// Fills the six tables of the controller at an index from those that lie at a place of the image. Gives the place behind them.
fn fill_tables(state: &mut [u8], index: u64, image: &[u8], at: usize) -> usize
    requires { Ready state.old index × (open_at state.old index ≡ none)
        × (found (tables_in (controller_of state.old index).radio.hardware table_rules (drop at image.now)) ≡ true) }
    ensures { (m : Parsed (List Table)) → tables_in (controller_of state.old index).radio.hardware table_rules
        (drop at image.now) ≡ some m → (state.new ≡ encode
        (put_controller (decode state.old) index (with_tables (controller_of state.old index) 0 m.value)))
        × (drop result image.now ≡ m.behind) }
{
    let mut p = at;
    for k in 0..6 {
        let n = usize::from(image[p]);
        let size = records::size_of(k);
        table::load(state, layout::table_place(index, k), size, image, p + 1, n);
        p += 1 + size * n;
    }
    p
}

// Gives the controller at an index a name and a short name; zeros stand behind each.
fn put_names(state: &mut [u8], index: u64, name: &[u8], short_name: &[u8])
    requires { Ready state.old index × (length name.now ≤ 249) × (length short_name.now ≤ 11) }
    ensures { state.new ≡ encode (put_controller (decode state.old) index
        (with_host (controller_of state.old index) (with_name (controller_of state.old index).host
        (padded 249 name.now ++ padded 11 short_name.now)))) }
{
    let mut names = [0u8; 260];
    octets::copy_into(&mut names, 0, name);
    octets::copy_into(&mut names, 249, short_name);
    layout::put_name(state, index, &names);
}

// How many octets of a name's field stand before the name: in version 2 its length octet.
#[tactic(auto, unfolding(crate::specs::Filling::length_octets))]
fn length_octets(version: Version) -> usize
    ensures { result ≡ length_octets version }
{
    match version {
        Version::One => 0,
        Version::Two => 1,
    }
}

// Gives the controller at an index the names of the fixed part at a place of the image. Gives the place behind that part.
#[tactic(auto, using(crate::proofs::Names::name_begins, crate::proofs::Names::short_begins, crate::proofs::Names::names_at))]
fn fill_names(version: Version, state: &mut [u8], index: u64, image: &[u8], at: usize) -> usize
    requires { Ready state.old index × NamesFit version (drop at image.now) }
    ensures { (result ≡ at + fixed_end version (drop at image.now))
        × (state.new ≡ encode (put_controller (decode state.old) index
        (with_host (controller_of state.old index) (with_name (controller_of state.old index).host
        (names_in version (drop at image.now)))))) }
{
    let head = length_octets(version);
    let name = at + 24;
    let short = name + fields::name_size(version, 249, image, name);
    let end = short + fields::name_size(version, 11, image, short);
    put_names(
        state,
        index,
        &image[name + head..short],
        &image[short + head..end],
    );
    end
}

// Fills the block of the absent index with the controller that lies at a place of the image. Gives the place behind it.
fn fill_controller(version: Version, state: &mut [u8], index: u64, image: &[u8], at: usize) -> usize
    requires { (state_ok state.old ≡ true) × (index < 4) × (present_at state.old index ≡ false)
        × (found (controller_in version (drop at image.now)) ≡ true) }
    ensures { (g : Parsed Placed) → controller_in version (drop at image.now) ≡ some g
        → (state.new ≡ encode (put_controller (decode state.old) index g.value.controller))
        × (drop result image.now ≡ g.behind) }
{
    let m = fields::settings_in(version, image, at);
    layout::fill_block(state, index, m.radio.hardware);
    layout::put_settings(state, index, m);
    let tables = fill_names(version, state, index, image, at);
    fill_tables(state, index, image, tables)
}

// Fills the state from an image of which nothing is dropped.
fn fill(version: Version, state: &mut [u8], image: &[u8])
    requires { (length state.old ≡ Lengths.state) × (items (walk version (drop 5 image.now)) ≡ []) × (5 < length image.now) }
    ensures { state.new ≡ encode (idle (hub_of (walk version (drop 5 image.now)))) }
{
    octets::zero_fill(state, 0, lengths::STATE);
    let mut at: usize = 6;
    for _ in 0..image[5] {
        at = fill_controller(version, state, u64::from(image[at]), image, at);
    }
}

// Load: the state that an image gives, if the state buffer has its length and the image keeps every rule; else nothing is written, and the answer tells the
// first fault of the image and where that begins.
pub fn load(state: &mut [u8], image: &[u8]) -> Answer
    ensures { (number_of result ≡ (hub_load state.old image.now).answer) × (count_of result ≡ 0)
        × (offset_of result ≡ (hub_load state.old image.now).offset)
        × (state.new ≡ (hub_load state.old image.now).state) }
{
    if state.len() != lengths::STATE {
        return Answer::BadState;
    }
    match reading::judge_either(image) {
        Ok(version) => {
            fill(version, state, image);
            Answer::Done(0)
        }
        Err(f) => Answer::BadImage(f.fault, f.at),
    }
}
