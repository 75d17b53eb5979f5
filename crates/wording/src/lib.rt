// The text that tells what is found of a packet, written into lent octets: the status by its name, the condition in words, and the place.
#![tactic(auto, unfolding(model::specs::Reasons::status_of, why::specs::Findings::status_in))]

ghost use Rattle.std.specs.Prelude.{◌≡◌, ◌+◌, ◌≤◌, ◌<◌, length, drop};
ghost use Rattle.model.specs.Reasons.{status_of};
ghost use Rattle.why.specs.Findings.{status_in};
ghost use Rattle.why.specs.Spelling.{decimal, spelled};
ghost use Rattle.why.specs.Wording.{condition, place_words, status_name, text_of};
ghost use Rattle.octets.specs.Parts.{write_at};
ghost use Rattle.wording.specs.Order.{order};

use model::{Place, Reason, statuses};
use why::Objection;

// The status that a reason is answered with.
fn reason_status(reason: Reason) -> u8
    ensures { result ≡ status_of reason }
{
    match reason {
        Reason::CodeUnknown => statuses::UNKNOWN_COMMAND,
        Reason::IndexNotNone | Reason::ControllerAbsent => statuses::INVALID_INDEX,
        Reason::LengthWrong => statuses::INVALID_PARAMETERS,
        Reason::CountAbove32 => statuses::NO_RESOURCES,
        Reason::DebugFlagAbove1
        | Reason::KeyTypeAbove8
        | Reason::KeyTypeAbove4
        | Reason::MasterAbove1
        | Reason::KeySizeNot7To16
        | Reason::RecordRepeated
        | Reason::AddressTypeNotBredr
        | Reason::AddressTypeNotLe
        | Reason::AddressTypeAbove2
        | Reason::AddressZero
        | Reason::AddressNotStaticRandom
        | Reason::AddressZeroNotBredr
        | Reason::ValueAbove1
        | Reason::ValueAbove2
        | Reason::TimeoutWithValue0
        | Reason::NoTimeoutWithValue2
        | Reason::NameNotEnded
        | Reason::ShortNameNotEnded
        | Reason::UuidZero
        | Reason::DisconnectAbove1
        | Reason::ActionAbove2
        | Reason::ActionNot1ForBredr
        | Reason::InstanceNot1To5
        | Reason::AdvertisingFlags
        | Reason::AdvDataAbove31
        | Reason::ScanRspAbove31 => statuses::INVALID_PARAMETERS,
        Reason::BredrNotSupported | Reason::LeNotSupported => statuses::NOT_SUPPORTED,
        Reason::DiscoverableTimeoutUnpowered | Reason::Unpowered => statuses::NOT_POWERED,
        Reason::NoAddressForPower
        | Reason::NotConnectable
        | Reason::BredrOff
        | Reason::LowEnergyNeeded
        | Reason::PoweredForBredrOff
        | Reason::StaticAddressForBredr
        | Reason::PoweredForStaticAddress
        | Reason::LowEnergyOff
        | Reason::AdvertisingTimeoutUnpowered => statuses::REJECTED,
        Reason::NoFreeSlot => statuses::NO_RESOURCES,
        Reason::UuidAbsent => statuses::INVALID_PARAMETERS,
        Reason::NoKeyOfDevice => statuses::NOT_PAIRED,
        Reason::AlreadyBlocked => statuses::FAILED,
        Reason::NotBlocked | Reason::DeviceAbsent | Reason::InstanceAbsent =>
            statuses::INVALID_PARAMETERS,
    }
}

// The status that the hub would answer with, 0 if it would take the packet: the number that C is told.
pub fn status(f: Result<(), Objection>) -> u8
    ensures { result ≡ status_in f }
{
    match f {
        Ok(()) => statuses::SUCCESS,
        Err(Objection::Busy) => statuses::BUSY,
        Err(Objection::Wrong(reason, _)) => reason_status(reason),
    }
}

// Words written from the place `at` on. Returns where they end.
fn put(text: &mut [u8], at: usize, words: &[u8]) -> usize
    requires { at + length words.now ≤ length text.old }
    ensures { (text.new ≡ write_at text.old at words.now) × (result ≡ at + length words.now) }
{
    octets::copy_into(text, at, words);
    at + words.len()
}

// The name of a status, written at the front; nothing for a number that no refusal has. Returns where it ends.
fn put_status(text: &mut [u8], status: u8) -> usize
    requires { 18 ≤ length text.old }
    ensures { (text.new ≡ write_at text.old 0 (spelled (status_name status))) × (result ≡ length (spelled (status_name status))) }
{
    match status {
        statuses::UNKNOWN_COMMAND => put(text, 0, b"Unknown Command"),
        statuses::FAILED => put(text, 0, b"Failed"),
        statuses::NOT_PAIRED => put(text, 0, b"Not Paired"),
        statuses::NO_RESOURCES => put(text, 0, b"No Resources"),
        statuses::BUSY => put(text, 0, b"Busy"),
        statuses::REJECTED => put(text, 0, b"Rejected"),
        statuses::NOT_SUPPORTED => put(text, 0, b"Not Supported"),
        statuses::INVALID_PARAMETERS => put(text, 0, b"Invalid Parameters"),
        statuses::NOT_POWERED => put(text, 0, b"Not Powered"),
        statuses::INVALID_INDEX => put(text, 0, b"Invalid Index"),
        _ => 0,
    }
}

// The condition of a reason of the last third, in words, written from the place `at` on. Returns where it ends.
fn put_last_condition(text: &mut [u8], at: usize, reason: Reason) -> usize
    requires { (at + 70 ≤ length text.old) × (36 ≤ order reason) }
    ensures { (text.new ≡ write_at text.old at (spelled (condition reason))) × (result ≡ at + length (spelled (condition reason))) }
{
    match reason {
        Reason::NotConnectable => put(text, at, b"connectable is off"),
        Reason::BredrOff => put(text, at, b"BR/EDR is off"),
        Reason::LowEnergyNeeded => put(text, at, b"without BR/EDR support Low Energy stays on"),
        Reason::PoweredForBredrOff => put(
            text,
            at,
            b"BR/EDR cannot be turned off while power is on",
        ),
        Reason::StaticAddressForBredr => put(
            text,
            at,
            b"BR/EDR cannot be turned on with a static address set",
        ),
        Reason::PoweredForStaticAddress => put(
            text,
            at,
            b"the static address cannot be set while power is on",
        ),
        Reason::LowEnergyOff => put(text, at, b"Low Energy is off"),
        Reason::AdvertisingTimeoutUnpowered => put(text, at, b"an advertising timeout needs power"),
        Reason::NoFreeSlot => put(text, at, b"the table has no free slot"),
        Reason::UuidAbsent => put(text, at, b"the table does not hold this UUID"),
        Reason::NoKeyOfDevice => put(text, at, b"no key of this device is held"),
        Reason::AlreadyBlocked => put(text, at, b"the device is blocked already"),
        Reason::NotBlocked => put(text, at, b"the device is not blocked"),
        Reason::DeviceAbsent => put(text, at, b"the table does not hold this device"),
        Reason::InstanceAbsent => put(text, at, b"there is no such advertising instance"),
        _ => at, // no reason is left
    }
}

// The condition of a reason of the middle or the last third, in words, written from the place `at` on. Returns where it ends.
fn put_middle_condition(text: &mut [u8], at: usize, reason: Reason) -> usize
    requires { (at + 70 ≤ length text.old) × (17 ≤ order reason) }
    ensures { (text.new ≡ write_at text.old at (spelled (condition reason))) × (result ≡ at + length (spelled (condition reason))) }
{
    match reason {
        Reason::ValueAbove1 => put(text, at, b"the value is not 0 or 1"),
        Reason::ValueAbove2 => put(text, at, b"the value is not 0, 1 or 2"),
        Reason::TimeoutWithValue0 => put(text, at, b"value 0 takes no timeout"),
        Reason::NoTimeoutWithValue2 => put(text, at, b"value 2 needs a timeout"),
        Reason::NameNotEnded => put(text, at, b"the name does not end with a zero"),
        Reason::ShortNameNotEnded => put(text, at, b"the short name does not end with a zero"),
        Reason::UuidZero => put(text, at, b"the UUID is zero"),
        Reason::DisconnectAbove1 => put(text, at, b"the disconnect flag is not 0 or 1"),
        Reason::ActionAbove2 => put(text, at, b"the action is above 2"),
        Reason::ActionNot1ForBredr => put(text, at, b"a BR/EDR device takes only action 1"),
        Reason::InstanceNot1To5 => put(text, at, b"the advertising instance is not 1 to 5"),
        Reason::AdvertisingFlags => put(text, at, b"the advertising flags are not zero"),
        Reason::AdvDataAbove31 => put(text, at, b"the advertising data are over 31 octets"),
        Reason::ScanRspAbove31 => put(text, at, b"the scan response data are over 31 octets"),
        Reason::BredrNotSupported => put(text, at, b"the controller does not support BR/EDR"),
        Reason::LeNotSupported => put(text, at, b"the controller does not support Low Energy"),
        Reason::DiscoverableTimeoutUnpowered => put(
            text,
            at,
            b"a discoverable timeout needs power",
        ),
        Reason::Unpowered => put(text, at, b"the controller is not powered"),
        Reason::NoAddressForPower => put(
            text,
            at,
            b"the controller has no public and no static address",
        ),
        _ => put_last_condition(text, at, reason),
    }
}

// The condition of a reason in words, written from the place `at` on. Returns where it ends. A third of the reasons to a function.
fn put_condition(text: &mut [u8], at: usize, reason: Reason) -> usize
    requires { at + 70 ≤ length text.old }
    ensures { (text.new ≡ write_at text.old at (spelled (condition reason))) × (result ≡ at + length (spelled (condition reason))) }
{
    match reason {
        Reason::CodeUnknown => put(text, at, b"the hub has no command of this code"),
        Reason::IndexNotNone => put(
            text,
            at,
            b"the command is to the hub itself, and the index is not 65535",
        ),
        Reason::ControllerAbsent => put(text, at, b"no controller has this index"),
        Reason::LengthWrong => put(
            text,
            at,
            b"the length does not fit the command or the count in it",
        ),
        Reason::CountAbove32 => put(text, at, b"the list has more than 32 records"),
        Reason::DebugFlagAbove1 => put(text, at, b"the debug flag is not 0 or 1"),
        Reason::KeyTypeAbove8 => put(text, at, b"the key type is above 8"),
        Reason::KeyTypeAbove4 => put(text, at, b"the key type is above 4"),
        Reason::MasterAbove1 => put(text, at, b"Master is not 0 or 1"),
        Reason::KeySizeNot7To16 => put(text, at, b"the encryption key size is not 7 to 16"),
        Reason::RecordRepeated => put(
            text,
            at,
            b"two keys are for one device (long term keys: and the same Master)",
        ),
        Reason::AddressTypeNotBredr => put(text, at, b"the address type is not 0 (BR/EDR)"),
        Reason::AddressTypeNotLe => put(text, at, b"the address type is not 1 or 2 (Low Energy)"),
        Reason::AddressTypeAbove2 => put(text, at, b"the address type is above 2"),
        Reason::AddressZero => put(text, at, b"the address is zero"),
        Reason::AddressNotStaticRandom => put(text, at, b"the address is not a static random one"),
        Reason::AddressZeroNotBredr => put(
            text,
            at,
            b"address zero (all devices) takes only address type 0",
        ),
        _ => put_middle_condition(text, at, reason),
    }
}

// The digits of a number at the end of 20 octets, the last one first. Returns where the first of them stands.
fn last_digits(n: usize, out: &mut [u8; 20]) -> usize
    requires { length out.old ≡ 20 }
    ensures { (drop result out.new ≡ decimal n) × (length out.new ≡ 20) × (result < 20) }
{
    let mut at: usize = 20;
    let mut rest = n;
    // not a `for`: the loop counts nothing, it ends with the digits of the number
    while 10 <= rest {
        at = at - 1;
        out[at] = (48 + rest % 10) as u8;
        rest = rest / 10;
    }
    at = at - 1;
    out[at] = (48 + rest) as u8;
    at
}

// A number in decimal, written from the place `at` on. Returns where it ends.
fn put_decimal(text: &mut [u8], at: usize, n: usize) -> usize
    requires { at + 20 ≤ length text.old }
    ensures { (text.new ≡ write_at text.old at (decimal n)) × (result ≡ at + length (decimal n)) × (result ≤ at + 20) }
{
    let mut digits: [u8; 20] = [0; 20];
    let first = last_digits(n, &mut digits);
    put(text, at, &digits[first..])
}

// A place in words, written from the place `at` on. Returns where it ends.
fn put_place(text: &mut [u8], at: usize, place: Place) -> usize
    requires { at + 60 ≤ length text.old }
    ensures { (text.new ≡ write_at text.old at (place_words place)) × (result ≡ at + length (place_words place)) }
{
    match place {
        Place::Nowhere => at,
        Place::AtOctet(octet) => {
            let from = put(text, at, b", octet ");
            put_decimal(text, from, octet)
        }
        Place::InRecord(record, octet) => {
            let from = put(text, at, b", record ");
            let next = put_decimal(text, from, record);
            let last = put(text, next, b", octet ");
            put_decimal(text, last, octet)
        }
        Place::Records(lower, higher) => {
            let from = put(text, at, b", records ");
            let next = put_decimal(text, from, lower);
            let last = put(text, next, b" and ");
            put_decimal(text, last, higher)
        }
    }
}

// What is found, in words. Returns the count of octets.
pub fn write_text(text: &mut [u8], f: Result<(), Objection>) -> usize
    requires { 256 ≤ length text.old }
    ensures { (text.new ≡ write_at text.old 0 (text_of f)) × (result ≡ length (text_of f)) }
{
    match f {
        Ok(()) => put(text, 0, b"would be taken"),
        Err(Objection::Busy) => put(
            text,
            0,
            b"Busy: another settings command is under way at this index",
        ),
        Err(Objection::Wrong(reason, place)) => {
            let name = put_status(text, reason_status(reason));
            let from = put(text, name, b": ");
            let next = put_condition(text, from, reason);
            put_place(text, next, place)
        }
    }
}
