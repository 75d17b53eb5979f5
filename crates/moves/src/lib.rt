// An image moved from one version to the other: read through, and then written anew, controller by controller.
#![tactic(auto)]

ghost use Rattle.std.specs.Prelude.{◌≡◌, true, List, [], map, ◌+◌, ◌≤◌, ◌<◌, length, drop, get_or};
ghost use Rattle.std.proofs.Math.Option.{some};
ghost use Rattle.model.specs.declared.Hardware.{Hardware};
ghost use Rattle.model.specs.Lengths as Lengths;
ghost use Rattle.model.specs.Octets.{joined};
ghost use Rattle.model.specs.State.{Table};
ghost use Rattle.model.specs.Tables.{table_rules};
ghost use Rattle.model.specs.Image.{bredr_flag, can_say, flag_word, image_of, name_image, name_read};
ghost use Rattle.model.specs.Reading.{hub_of, items, judge, only, walk};
ghost use Rattle.model.specs.Moves.{hub_downgrade, hub_upgrade, rewritten, with_room};
ghost use Rattle.octets.specs.Parts.{write_at};
ghost use Rattle.fields.specs.Places.{fixed_end};
ghost use Rattle.reading.specs.Contents.{Parsed, Placed, controller_in, tables_in};
ghost use Rattle.moves.specs.Moving.{Gives, Lies, TablesLie, all_lie, all_said, other, controllers_in, fixed_moved, written};

use model::{Answer, RadioSettings, Settings, Version, lengths};

// The version that an image is moved from. It is a function, and no method: Version is declared in model, which holds no code.
#[tactic(auto, unfolding(crate::specs::Moving::other))]
fn other(to: Version) -> Version
    ensures { result ≡ other to }
{
    match to {
        Version::One => Version::Two,
        Version::Two => Version::One,
    }
}

// Whether a version can say these settings: version 1 only BR/EDR that is on where it is supported.
#[tactic(auto, unfolding(model::specs::Image::can_say))]
fn can_say(to: Version, r: RadioSettings) -> bool
    ensures { result ≡ can_say to r }
{
    match to {
        Version::One => rules::bredr_as_supported(r),
        Version::Two => true,
    }
}

// The flags that a version has for these settings: version 1 has none for BR/EDR.
#[tactic(auto, unfolding(model::specs::Image::bredr_flag))]
fn flags_of(to: Version, m: Settings) -> u64
    ensures { result ≡ flag_word m.radio.connectable m.host.bondable (bredr_flag to m.radio.bredr) m.radio.low_energy }
{
    let bredr = match to {
        Version::One => false,
        Version::Two => m.radio.bredr,
    };
    rules::flag_word(
        m.radio.connectable,
        m.host.bondable,
        bredr,
        m.radio.low_energy,
    )
}

// The place behind the six tables at a place of an acceptable image.
fn tables_end(image: &[u8], at: usize) -> usize
    requires { TablesLie image.now at }
    ensures { (f : Hardware) (m : Parsed (List Table)) → tables_in f table_rules (drop at image.now) ≡ some m
        → (at ≤ result) × (result ≤ length image.now) × (drop result image.now ≡ m.behind) }
{
    let mut p = at;
    for k in 0..6 {
        p += 1 + records::size_of(k) * usize::from(image[p]);
    }
    p
}

// Writes the name that a field says at a place of the output; its room is 249 octets, or 11 of a short name. Gives the place behind it.
#[tactic(auto, using(crate::proofs::Pieces::one_long, crate::proofs::Pieces::two_long))]
fn move_name(to: Version, room: usize, field: &[u8], out: &mut [u8], place: usize) -> usize
    requires { (0 < length field.now) × (length field.now ≤ room) × (room ≤ 249)
        × (place + length (name_image to (name_read (other to) room field.now)) ≤ length out.old) }
    ensures { (result ≡ place + length (name_image to (name_read (other to) room field.now)))
        × (out.new ≡ write_at out.old place (name_image to (name_read (other to) room field.now))) }
{
    match to {
        Version::One => {
            let name = &field[1..];
            octets::copy_into(out, place, name);
            octets::zero_fill(out, place + name.len(), room - name.len());
            place + room
        }
        Version::Two => {
            let used = octets::used_part(field);
            octets::put8(out, place, used.len() as u8);
            octets::copy_into(out, place + 1, used);
            place + 1 + used.len()
        }
    }
}

// Writes the 24 octets before the names of the controller at a place of the image.
fn move_fixed(to: Version, image: &[u8], at: usize, out: &mut [u8], place: usize)
    requires { (at + 24 ≤ length image.now) × (place + 24 ≤ length out.old) }
    ensures { out.new ≡ write_at out.old place (fixed_moved to image.now at) }
{
    let flags = flags_of(to, fields::settings_in(other(to), image, at));
    octets::copy_into(out, place, &image[at..at + 14]);
    octets::put_be32(out, place + 14, flags);
    octets::copy_into(out, place + 18, &image[at + 18..at + 24]);
}

// Writes the controller that lies at a place of the image, up to an end, its tables at another. Gives the place behind it.
fn move_controller(
    to: Version,
    image: &[u8],
    at: usize,
    tables: usize,
    end: usize,
    out: &mut [u8],
    place: usize,
) -> usize
    requires { Lies (other to) image.now at × (tables ≡ at + fixed_end (other to) (drop at image.now)) × (end ≤ length image.now)
        × ((g : Parsed Placed) → controller_in (other to) (drop at image.now) ≡ some g
        → (drop end image.now ≡ g.behind) × (place + length (written to g.value) ≤ length out.old)) }
    ensures { (g : Parsed Placed) → controller_in (other to) (drop at image.now) ≡ some g
        → (result ≡ place + length (written to g.value)) × (out.new ≡ write_at out.old place (written to g.value)) }
{
    let name = at + 24;
    let short = name + fields::name_size(other(to), 249, image, name);
    move_fixed(to, image, at, out, place);
    let second = move_name(to, 249, &image[name..short], out, place + 24);
    let p = move_name(to, 11, &image[short..tables], out, second);
    octets::copy_into(out, p, &image[tables..end]);
    p + (end - tables)
}

// Whether a version can say every controller of an acceptable image.
fn all_said(to: Version, image: &[u8]) -> bool
    requires { (6 ≤ length image.now) × (all_lie (other to) (get_or image.now 5 0) (drop 6 image.now) ≡ true) }
    ensures { result ≡ all_said to (controllers_in (other to) (get_or image.now 5 0) (drop 6 image.now)) }
{
    let from = other(to);
    let mut at: usize = 6;
    for _ in 0..image[5] {
        if !can_say(to, fields::settings_in(from, image, at).radio) {
            return false;
        }
        at = tables_end(image, fields::fixed_end(from, image, at));
    }
    true
}

// Writes the controllers of an acceptable image from place 6 of the output on. Gives the place behind the last.
fn move_controllers(to: Version, image: &[u8], out: &mut [u8]) -> usize
    requires { (6 ≤ length image.now) × (all_lie (other to) (get_or image.now 5 0) (drop 6 image.now) ≡ true)
        × (6 + length (joined (map (written to) (controllers_in (other to) (get_or image.now 5 0) (drop 6 image.now)))) ≤ length out.old) }
    ensures { (result ≡ 6 + length (joined (map (written to) (controllers_in (other to) (get_or image.now 5 0) (drop 6 image.now)))))
        × (out.new ≡ write_at out.old 6
        (joined (map (written to) (controllers_in (other to) (get_or image.now 5 0) (drop 6 image.now))))) }
{
    let from = other(to);
    let mut at: usize = 6;
    let mut place: usize = 6;
    for _ in 0..image[5] {
        let tables = fields::fixed_end(from, image, at);
        let end = tables_end(image, tables);
        place = move_controller(to, image, at, tables, end, out, place);
        at = end;
    }
    place
}

// Writes an acceptable image anew: its controllers, then the head before them.
fn write(to: Version, image: &[u8], out: &mut [u8]) -> usize
    requires { (6 ≤ length image.now) × (items (walk (other to) (drop 5 image.now)) ≡ []) × (Lengths.largest_image ≤ length out.old) }
    ensures { (result ≡ length (image_of to (hub_of (walk (other to) (drop 5 image.now)))))
        × (out.new ≡ write_at out.old 0 (image_of to (hub_of (walk (other to) (drop 5 image.now))))) }
{
    let end = move_controllers(to, image, out);
    octets::put_be32(out, 0, end as u64);
    octets::put8(out, 4, reading::version_octet(to));
    octets::put8(out, 5, image[5]);
    end
}

// A move: the room, the image in the version it is moved from, told by its first fault where it is not acceptable, what the other can say; then it is
// written.
fn move_to(to: Version, image: &[u8], out: &mut [u8]) -> Answer
    ensures { Gives (with_room (length out.old) (rewritten to (judge (only (other to)) image.now))) result out.old out.new }
{
    if out.len() < lengths::LARGEST_IMAGE {
        return Answer::SmallBuffer;
    }
    match reading::judge_only(other(to), image) {
        Ok(_) => {
            if all_said(to, image) {
                return Answer::Done(write(to, image, out));
            }
            Answer::NotInImage
        }
        Err(f) => Answer::BadImage(f.fault, f.at),
    }
}

// Version 1 to version 2.
pub fn upgrade(image: &[u8], out: &mut [u8]) -> Answer
    ensures { Gives (hub_upgrade image.now (length out.old)) result out.old out.new }
{
    move_to(Version::Two, image, out)
}

// Version 2 back to version 1.
pub fn downgrade(image: &[u8], out: &mut [u8]) -> Answer
    ensures { Gives (hub_downgrade image.now (length out.old)) result out.old out.new }
{
    move_to(Version::One, image, out)
}
