// The lent state read and written: only this crate knows where a part lies. A read says what the model's word for that part is, and a write
// what hub the state stands for afterwards.
#![tactic(auto)]

pub mod places;
pub mod waiting;

ghost use Rattle.std.specs.Prelude.{◌≡◌, false, true, ◌+◌, ◌-◌, ◌*◌, ◌<◌, ◌≤◌, get_or, length};
ghost use Rattle.std.proofs.Math.Option.{none, some};
ghost use Rattle.model.specs.Lengths as Lengths;
ghost use Rattle.model.specs.Octets.{u16, used_part};
ghost use Rattle.model.specs.Advertising.{data_of};
ghost use Rattle.model.specs.State.{flag, name_part, plugged, settings_of, with_host, with_name};
ghost use Rattle.model.specs.Commands.{words};
ghost use Rattle.model.specs.Hub.{with_open};
ghost use Rattle.model.specs.Layout.{data_back, data_part, decode, encode, schedule_part, settings_part};
ghost use Rattle.model.specs.Meanings.{state_ok};
ghost use Rattle.octets.specs.Parts.{part, write_at};
ghost use Rattle.layout.specs.Advertising.{cleared_slot, cleared_slots, five_from, with_instance_data};
ghost use Rattle.layout.specs.Places.{Ready, base, controller_of, emptied, hardware_head, place_of, present_at, put_controller, settings_head};
ghost use Rattle.layout.specs.Places.{table_place, transports_of, with_clock};
ghost use Rattle.rules.specs.Effects.{with_settings, with_turns};

use model::{Hardware, HostSettings, RadioSettings, Schedule, Settings, Timer, lengths};

// Where block i begins.
fn block_place(i: u64) -> usize
    requires { i < 4 }
    ensures { result ≡ base i }
{
    4 + lengths::BLOCK * i as usize
}

// Where the open command of index i lies: its code in two octets, then its parameters.
pub fn open_place(i: u64) -> usize
    requires { i < 4 }
    ensures { result ≡ place_of i 1 }
{
    block_place(i) + places::OPEN_CODE
}

// Where the name of index i lies: 249 octets, then 11 of the short name.
pub fn name_place(i: u64) -> usize
    requires { i < 4 }
    ensures { result ≡ place_of i 4 }
{
    block_place(i) + places::NAME
}

// The used part of a name of index i, of the short name where `which` is not 0: the octets where they lie, nothing is copied.
pub fn used_name(s: &[u8], i: u64, which: u64) -> &[u8]
    requires { (length s.now ≡ Lengths.state) × (i < 4) }
    ensures { (result.now ≡ used_part (name_part which (controller_of s.now i).host.name)) × (length result.now ≤ 249) }
{
    let at = name_place(i);
    if which == 0 {
        octets::used_part(&s[at..at + 249])
    } else {
        octets::used_part(&s[at + 249..at + 260])
    }
}

// Where table k of index i lies, in the model's order of the tables.
pub fn table_place(i: u64, k: usize) -> usize
    requires { (i < 4) × (k < 6) }
    ensures { result ≡ table_place i k }
{
    let tables: [usize; 6] = [places::TABLES, 841, 1645, 2801, 3541, 3769];
    block_place(i) + tables[k]
}

// Whether index i has a controller.
pub fn present(s: &[u8], i: u64) -> bool
    requires { length s.now ≡ Lengths.state }
    ensures { result ≡ present_at s.now i }
{
    i < 4 && s[block_place(i)] == 1
}

// What plug gave the controller at index i.
pub fn hardware_at(s: &[u8], i: u64) -> Hardware
    requires { (length s.now ≡ Lengths.state) × (i < 4) }
    ensures { result ≡ (controller_of s.now i).radio.hardware }
{
    let b = block_place(i);
    Hardware {
        public_address: octets::six(s, b + places::PUBLIC_ADDRESS),
        version: s[b + places::VERSION],
        manufacturer: octets::u16_at(s, b + places::MANUFACTURER) as u16,
        supported: octets::u32_at(s, b + places::SUPPORTED) as u32,
    }
}

// All settings of the controller at index i.
pub fn settings_at(s: &[u8], i: u64) -> Settings
    requires { (length s.now ≡ Lengths.state) × (i < 4) }
    ensures { result ≡ settings_of (controller_of s.now i) }
{
    let b = block_place(i);
    Settings {
        radio: RadioSettings {
            hardware: hardware_at(s, i),
            powered: s[b + places::POWERED] == 1,
            connectable: s[b + places::CONNECTABLE] == 1,
            bredr: s[b + places::BREDR] == 1,
            low_energy: s[b + places::LOW_ENERGY] == 1,
            static_address: octets::six(s, b + places::STATIC_ADDRESS),
        },
        host: HostSettings {
            timer: Timer {
                discoverable: s[b + places::DISCOVERABLE] == 1,
                seconds: octets::u16_at(s, b + places::TIMER) as u16,
            },
            bondable: s[b + places::BONDABLE] == 1,
        },
    }
}

// A flag as an octet.
fn flag_octet(b: bool) -> u8
    ensures { result ≡ flag b 1 }
{
    if b { 1 } else { 0 }
}

// The flags and the timer, as they lie.
fn settings_head(m: Settings) -> [u8; 8]
    ensures { result ≡ settings_head m }
{
    let seconds = m.host.timer.seconds.to_le_bytes();
    [
        flag_octet(m.radio.powered),
        flag_octet(m.radio.connectable),
        flag_octet(m.host.timer.discoverable),
        flag_octet(m.host.bondable),
        flag_octet(m.radio.bredr),
        flag_octet(m.radio.low_energy),
        seconds[0],
        seconds[1],
    ]
}

// Writes the settings of m from a place on.
fn write_settings(s: &mut [u8], at: usize, m: Settings)
    requires { (at + 14 ≤ length s.old) × (length m.radio.static_address ≡ 6) }
    ensures { s.new ≡ write_at s.old at (settings_part m) }
{
    octets::copy_into(s, at, &settings_head(m));
    octets::copy_into(s, at + 8, &m.radio.static_address);
}

// Gives the controller at index i the settings of m; its hardware stays.
pub fn put_settings(s: &mut [u8], i: u64, m: Settings)
    requires { Ready s.old i }
    ensures { s.new ≡ encode (put_controller (decode s.old) i (with_settings (controller_of s.old i) m)) }
{
    let b = block_place(i);
    write_settings(s, b + places::POWERED, m);
}

// The code of the command under way at index i, 0 where there is none: the number that lies in the state, where no command has code 0.
pub fn open_code(s: &[u8], i: u64) -> u64
    requires { (length s.now ≡ Lengths.state) × (i < 4) }
    ensures { result ≡ u16 s.now (place_of i 1) }
{
    let b = block_place(i);
    octets::u16_at(s, b + places::OPEN_CODE)
}

// Lays a command under way at index i: its code, its parameters, zeros behind them.
pub fn put_open(s: &mut [u8], i: u64, code: u64, ps: &[u8])
    requires { Ready s.old i × (0 < code) × (code < 65536) × (length ps.now ≤ 3) }
    ensures { s.new ≡ encode (with_open (decode s.old) i (some (record { code = code; params = ps.now }))) }
{
    let b = block_place(i);
    let n = ps.len();
    octets::put16(s, b + places::OPEN_CODE, code);
    octets::copy_into(s, b + places::OPEN_PARAMETERS, ps);
    octets::zero_fill(s, b + places::OPEN_PARAMETERS + n, 3 - n);
}

// Nothing is under way at index i any more.
pub fn clear_open(s: &mut [u8], i: u64)
    requires { Ready s.old i }
    ensures { s.new ≡ encode (with_open (decode s.old) i none) }
{
    let b = block_place(i);
    octets::zero_fill(s, b + places::OPEN_CODE, 5);
}

// The last reading of the clock.
pub fn clock_at(s: &[u8]) -> u32
    requires { length s.now ≡ Lengths.state }
    ensures { result ≡ (decode s.now).plain.clock }
{
    octets::u32_at(s, 0) as u32
}

// Keeps a reading of the clock.
pub fn put_clock(s: &mut [u8], v: u32)
    requires { state_ok s.old ≡ true }
    ensures { s.new ≡ encode (with_clock (decode s.old) v) }
{
    octets::put32(s, 0, u64::from(v));
}

// Gives the controller at index i the name and short name of ps.
pub fn put_name(s: &mut [u8], i: u64, ps: &[u8])
    requires { Ready s.old i × (length ps.now ≡ 260) }
    ensures { s.new ≡ encode (put_controller (decode s.old) i
        (with_host (controller_of s.old i) (with_name (controller_of s.old i).host ps.now))) }
{
    let b = block_place(i);
    octets::copy_into(s, b + places::NAME, ps);
}

// Empties index i: no controller, and nothing under way.
pub fn empty_block(s: &mut [u8], i: u64)
    requires { Ready s.old i }
    ensures { s.new ≡ encode (emptied (decode s.old) i) }
{
    let b = block_place(i);
    octets::zero_fill(s, b, lengths::BLOCK);
}

// The hardware but for its address, as it lies.
pub fn hardware_head(f: Hardware) -> [u8; 7]
    ensures { result ≡ hardware_head f }
{
    let manufacturer = f.manufacturer.to_le_bytes();
    let supported = f.supported.to_le_bytes();
    [
        f.version,
        manufacturer[0],
        manufacturer[1],
        supported[0],
        supported[1],
        supported[2],
        supported[3],
    ]
}

// BR/EDR and Low Energy as flags, each on where it is supported.
fn transports(f: Hardware) -> [u8; 2]
    ensures { result ≡ transports_of f }
{
    [
        flag_octet(rules::bredr_supported(f)),
        flag_octet(rules::le_supported(f)),
    ]
}

// Fills the block of the absent index i, which is zero, with a controller of the hardware f: BR/EDR and Low Energy are on where they
// are supported, all else is zero.
pub fn fill_block(s: &mut [u8], i: u64, f: Hardware)
    requires { (state_ok s.old ≡ true) × (i < 4) × (present_at s.old i ≡ false) × (length f.public_address ≡ 6) }
    ensures { s.new ≡ encode (put_controller (decode s.old) i (plugged f)) }
{
    let b = block_place(i);
    octets::put8(s, b, 1);
    octets::copy_into(s, b + places::VERSION, &hardware_head(f));
    octets::copy_into(s, b + places::PUBLIC_ADDRESS, &f.public_address);
    octets::copy_into(s, b + places::BREDR, &transports(f));
}

// Advertising

// Five numbers of two octets from a place on.
fn five_at(s: &[u8], at: usize) -> [u16; 5]
    requires { at + 10 ≤ length s.now }
    ensures { result ≡ five_from s.now at }
{
    [
        octets::u16_at(s, at) as u16,
        octets::u16_at(s, at + 2) as u16,
        octets::u16_at(s, at + 4) as u16,
        octets::u16_at(s, at + 6) as u16,
        octets::u16_at(s, at + 8) as u16,
    ]
}

// The turns of the advertising of the controller at index i.
pub fn schedule_at(s: &[u8], i: u64) -> Schedule
    requires { (length s.now ≡ Lengths.state) × (i < 4) }
    ensures { result ≡ (controller_of s.now i).host.advertising.schedule }
{
    let b = block_place(i);
    Schedule {
        durations: five_at(s, b + places::ADVERTISING),
        timeouts: five_at(s, b + places::TIMEOUTS),
        on_air: s[b + places::ON_AIR],
        left: octets::u16_at(s, b + places::LEFT) as u16,
    }
}

// Writes five numbers in two octets each from a place on.
fn write_five(s: &mut [u8], at: usize, l: [u16; 5])
    requires { at + 10 ≤ length s.old }
    ensures { s.new ≡ write_at s.old at (words l) }
{
    for k in 0..5 {
        octets::put16(s, at + 2 * k, u64::from(l[k]));
    }
}

// Writes a schedule from a place on.
fn write_schedule(s: &mut [u8], at: usize, t: Schedule)
    requires { at + 23 ≤ length s.old }
    ensures { (s.new ≡ write_at s.old at (schedule_part t)) × (length t.durations ≡ 5) × (length t.timeouts ≡ 5) }
{
    write_five(s, at, t.durations);
    write_five(s, at + 10, t.timeouts);
    octets::put8(s, at + 20, t.on_air);
    octets::put16(s, at + 21, u64::from(t.left));
}

// Clears the data at a place, of an instance that was there before and no longer is.
fn clear_slot(s: &mut [u8], at: usize, before: u16, after: u16)
    requires { at + 32 ≤ length s.old }
    ensures { s.new ≡ cleared_slot s.old at before after }
{
    if before != 0 && after == 0 {
        octets::zero_fill(s, at, 32);
    }
}

// Clears the data of the instances that were there before and no longer are, from the place of the first on.
fn clear_slots(s: &mut [u8], at: usize, before: [u16; 5], after: [u16; 5])
    requires { at + 160 ≤ length s.old }
    ensures { s.new ≡ cleared_slots s.old at before after }
{
    for k in 0..5 {
        clear_slot(s, at + 32 * k, before[k], after[k]);
    }
}

// Gives the controller at index i the settings of m and the turns of t, where it had those of `old`; data of instances that went are cleared.
pub fn put_turns(s: &mut [u8], i: u64, m: Settings, old: Schedule, t: Schedule)
    requires { Ready s.old i × (old ≡ (controller_of s.old i).host.advertising.schedule) }
    ensures { s.new ≡ encode (put_controller (decode s.old) i
        (with_turns (with_settings (controller_of s.old i) m) t)) }
{
    let b = block_place(i);
    write_settings(s, b + places::POWERED, m);
    write_schedule(s, b + places::ADVERTISING, t);
    clear_slots(s, b + places::ADV_DATA, old.durations, t.durations);
    clear_slots(s, b + places::SCAN_RSP, old.durations, t.durations);
}

// Writes the data of an instance at a place: their length, the data, zeros behind them.
fn write_data(s: &mut [u8], at: usize, src: &[u8])
    requires { (at + 32 ≤ length s.old) × (length src.now ≤ 31) }
    ensures { s.new ≡ write_at s.old at (data_part src.now) }
{
    let n = src.len();
    octets::put8(s, at, n as u8);
    octets::copy_into(s, at + 1, src);
    octets::zero_fill(s, at + 1 + n, 31 - n);
}

// Where the data of instance k lie, from the place of those of the first on.
fn data_place(at: usize, k: u8) -> usize
    requires { (1 ≤ k) × (k ≤ 5) × (at ≤ Lengths.state) }
    ensures { result ≡ at + 32 * (k - 1) }
{
    at + 32 * (k as usize - 1)
}

// Gives the controller at index i the turns of t, and its instance k these data.
pub fn put_instance(s: &mut [u8], i: u64, t: Schedule, k: u8, adv: &[u8], scan: &[u8])
    requires { Ready s.old i × (1 ≤ k) × (k ≤ 5) × (length adv.now ≤ 31) × (length scan.now ≤ 31) }
    ensures { s.new ≡ encode (put_controller (decode s.old) i
        (with_instance_data (controller_of s.old i) t k adv.now scan.now)) }
{
    let b = block_place(i);
    write_schedule(s, b + places::ADVERTISING, t);
    write_data(s, data_place(b + places::ADV_DATA, k), adv);
    write_data(s, data_place(b + places::SCAN_RSP, k), scan);
}

// The data of an instance at a place, where they lie: nothing is copied.
fn data_part(s: &[u8], at: usize) -> &[u8]
    requires { (at + 32 ≤ length s.now) × (get_or s.now at 0 ≤ 31) }
    ensures { result.now ≡ data_back (part s.now at 32) }
{
    let n = s[at] as usize;
    &s[at + 1..at + 1 + n]
}

// Adv_Data of instance k of index i, where they lie.
pub fn adv_data(s: &[u8], i: u64, k: u8) -> &[u8]
    requires { Ready s.now i × (1 ≤ k) × (k ≤ 5) }
    ensures { (result.now ≡ data_of (controller_of s.now i).host.advertising.adv_data k) × (length result.now ≤ 31) }
{
    let b = block_place(i);
    data_part(s, data_place(b + places::ADV_DATA, k))
}

// Scan_Rsp of instance k of index i, where they lie.
pub fn scan_rsp(s: &[u8], i: u64, k: u8) -> &[u8]
    requires { Ready s.now i × (1 ≤ k) × (k ≤ 5) }
    ensures { (result.now ≡ data_of (controller_of s.now i).host.advertising.scan_rsp k) × (length result.now ≤ 31) }
{
    let b = block_place(i);
    data_part(s, data_place(b + places::SCAN_RSP, k))
}
