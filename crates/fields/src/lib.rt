// The fixed part of a controller where it lies in an image, from its index on, read field by field: each first whole, then right.
#![tactic(auto)]

ghost use Rattle.std.specs.Prelude.{◌≡◌, ◌+◌, ◌≤◌, ◌<◌, length, drop};
ghost use Rattle.model.specs.Octets.{bit};
ghost use Rattle.model.specs.Image.{bredr_flag, bredr_read, flag_word, name_right, name_size, no_zero};
ghost use Rattle.model.specs.Reading.{fixed_part, flags_right, go_on, index_right, name_field};
ghost use Rattle.fields.specs.Places.{fixed_end, hardware_in, settings_in};
ghost use Rattle.fields.specs.Reads.{Kept, Reads, Whole};

use model::{Hardware, HostSettings, ImageFault, RadioSettings, Settings, Timer, Version};

// The first fault of an image, and the offset at which that begins.
#[derive(Clone, Copy)]
pub struct FaultAt {
    pub fault: ImageFault,
    pub at: usize,
}

// The hardware that the fixed part at a place says.
pub fn hardware_in(image: &[u8], at: usize) -> Hardware
    requires { at + 14 ≤ length image.now }
    ensures { result ≡ hardware_in (drop at image.now) }
{
    Hardware {
        public_address: octets::six(image, at + 1),
        version: image[at + 7],
        manufacturer: octets::be16_at(image, at + 8) as u16,
        supported: octets::be32_at(image, at + 10) as u32,
    }
}

// Whether BR/EDR is on, by the flags: in version 1 it is where it is supported.
#[tactic(auto, unfolding(model::specs::Image::bredr_read, model::specs::Octets::bit))]
fn bredr_in(version: Version, f: Hardware, flags: u64) -> bool
    ensures { result ≡ bredr_read version f flags }
{
    match version {
        Version::One => rules::bredr_supported(f),
        Version::Two => flags / 128 % 2 == 1,
    }
}

// How many octets the name's field at a place has: all of the room in version 1, in version 2 its length octet and as many as that says.
#[tactic(auto, using(crate::proofs::Places::at_first), unfolding(model::specs::Image::name_size, model::specs::Octets::octet))]
pub fn name_size(version: Version, room: usize, image: &[u8], at: usize) -> usize
    requires { at < length image.now }
    ensures { (result ≡ name_size version room (drop at image.now)) × (result ≤ room + 256) }
{
    match version {
        Version::One => room,
        Version::Two => usize::from(image[at]) + 1,
    }
}

// The settings that the fixed part at a place gives a controller: no power, no timer.
pub fn settings_in(version: Version, image: &[u8], at: usize) -> Settings
    requires { at + 24 ≤ length image.now }
    ensures { result ≡ settings_in version (drop at image.now) }
{
    let hardware = hardware_in(image, at);
    let flags = octets::be32_at(image, at + 14);
    let radio = RadioSettings {
        hardware,
        powered: false,
        connectable: flags / 2 % 2 == 1,
        bredr: bredr_in(version, hardware, flags),
        low_energy: flags / 512 % 2 == 1,
        static_address: octets::six(image, at + 18),
    };
    let timer = Timer {
        discoverable: false,
        seconds: 0,
    };
    let host = HostSettings {
        timer,
        bondable: flags / 16 % 2 == 1,
    };
    Settings { radio, host }
}

// The checks

// Whether an index is from low to 3.
#[tactic(auto, unfolding(model::specs::Reading::index_right))]
fn index_right(low: u64, index: u64) -> bool
    ensures { result ≡ index_right low index }
{
    low <= index && index <= 3
}

// Of these flags those that the version has.
#[tactic(auto, using(crate::proofs::Checks::flags_one, crate::proofs::Checks::flags_two))]
fn known_flags(version: Version, flags: u64) -> u64
    ensures { result ≡ flag_word (bit 1 flags) (bit 4 flags) (bredr_flag version (bit 7 flags)) (bit 9 flags) }
{
    let low = flags / 2 % 2 * 2 + flags / 16 % 2 * 16;
    match version {
        Version::One => low + flags / 512 % 2 * 512,
        Version::Two => low + flags / 128 % 2 * 128 + flags / 512 % 2 * 512,
    }
}

// Whether there is no other flag than the version has, and BR/EDR and Low Energy are on only where they can be.
#[tactic(auto, using(crate::proofs::Checks::flags_known, crate::proofs::Checks::flags_unknown))]
fn flags_right(version: Version, f: Hardware, flags: u64) -> bool
    ensures { result ≡ flags_right version f flags }
{
    flags == known_flags(version, flags)
        && rules::switches_ok(f, bredr_in(version, f, flags), flags / 512 % 2 == 1)
}

// Whether none of these octets is zero.
fn no_zero(s: &[u8]) -> bool
    ensures { result ≡ no_zero s.now }
{
    s.iter().all(|x| *x != 0)
}

// Whether a name's field, which is whole, keeps its rule: in version 1 it ends in a zero octet, in version 2 its length is below the room and no octet is
// zero.
#[tactic(auto, using(crate::proofs::Checks::right_two), unfolding(model::specs::Image::name_size, model::specs::Image::name_right, model::specs::Octets::octet))]
fn name_right(version: Version, room: usize, field: &[u8]) -> bool
    requires { (0 < room) × (name_size version room field.now ≤ length field.now) }
    ensures { result ≡ name_right version room field.now }
{
    match version {
        Version::One => field[room - 1] == 0,
        Version::Two => usize::from(field[0]) < room && no_zero(&field[1..]),
    }
}

// Reading

// Goes on where a rule is kept; else a thing at a place has this fault.
pub fn kept(rule: bool, fault: ImageFault, at: usize) -> Result<(), FaultAt>
    ensures { Kept rule fault at result }
{
    if rule {
        Ok(())
    } else {
        Err(FaultAt { fault, at })
    }
}

// Goes on where the thing at a place is whole, which has so many octets; else the image ends before it is, and the fault is told at its end.
pub fn whole(image: &[u8], at: usize, size: usize) -> Result<(), FaultAt>
    requires { at ≤ length image.now }
    ensures { Whole image.now at size result }
{
    kept(size <= image.len() - at, ImageFault::BadLength, image.len())
}

// Reads a name's field at a place.
fn name(version: Version, room: usize, image: &[u8], at: usize) -> Result<usize, FaultAt>
    requires { (0 < room) × (at ≤ length image.now) }
    ensures { Reads image.now (name_field version room (drop at image.now)) result }
{
    whole(image, at, 1)?;
    let size = name_size(version, room, image, at);
    whole(image, at, size)?;
    let field = &image[at..at + size];
    kept(name_right(version, room, field), ImageFault::BadField, at)?;
    Ok(at + size)
}

// Reads the name and the short name at a place.
fn names(version: Version, image: &[u8], at: usize) -> Result<usize, FaultAt>
    requires { at ≤ length image.now }
    ensures { Reads image.now (go_on (name_field version 249 (drop at image.now)) (λ n. name_field version 11)) result }
{
    let short = name(version, 249, image, at)?;
    name(version, 11, image, short)
}

// Reads the fixed part of a controller at a place, whose index must be at least low.
pub fn fixed_part(version: Version, low: u64, image: &[u8], at: usize) -> Result<usize, FaultAt>
    requires { at ≤ length image.now }
    ensures { Reads image.now (fixed_part version low (drop at image.now)) result }
{
    whole(image, at, 1)?;
    let index = u64::from(image[at]);
    kept(index_right(low, index), ImageFault::BadIndex, at)?;
    whole(image, at, 14)?;
    let f = hardware_in(image, at);
    kept(rules::hardware_ok(f), ImageFault::BadField, at + 10)?;
    whole(image, at, 18)?;
    let flags = octets::be32_at(image, at + 14);
    kept(
        flags_right(version, f, flags),
        ImageFault::BadField,
        at + 14,
    )?;
    whole(image, at, 24)?;
    let own = octets::six(image, at + 18);
    kept(rules::static_fits(f, &own), ImageFault::BadField, at + 18)?;
    names(version, image, at + 24)
}

// The place behind the fixed part at a place.
pub fn fixed_end(version: Version, image: &[u8], at: usize) -> usize
    requires { at + fixed_end version (drop at image.now) ≤ length image.now }
    ensures { result ≡ at + fixed_end version (drop at image.now) }
{
    let short = at + 24 + name_size(version, 249, image, at + 24);
    short + name_size(version, 11, image, short)
}
