// What is found of each command to a controller, the key lists aside: its length, then its checks, one after the other in the order of its rule, up to the
// first that fails.
#![tactic(auto, using(why::proofs::Orders::check_steps), unfolding(crate::proofs::Opened::open_checks))]

ghost use Rattle.std.specs.Prelude.{◌≡◌, ◌≤◌, ◌<◌, length};
ghost use Rattle.model.specs.State.{Controller, table_of};
ghost use Rattle.model.specs.Tables as Tables;
ghost use Rattle.model.specs.Tables.{begins, blocked_rule, device_rule};
ghost use Rattle.model.specs.Rules.{set_powered, set_discoverable, set_connectable, set_low_energy, set_bredr, set_static_address};
ghost use Rattle.model.specs.Immediate.{set_bondable, set_local_name, add_uuid, remove_uuid, unpair_device, block_device, unblock_device, add_device, remove_device};
ghost use Rattle.model.specs.Immediate.{add_advertising, remove_advertising, read_information};
ghost use Rattle.layout.specs.Places.{Ready, controller_of};
ghost use Rattle.why.specs.Findings.{first_wrong, in_packet, why_immediate, why_radio};

use model::{RadioSettings, Reason, Schedule};
use why::Objection;

// Settings

// 0x0005 Set Powered.
pub fn set_powered(r: RadioSettings, busy: bool, ps: &[u8]) -> Result<(), Objection>
    ensures { result ≡ why_radio set_powered r busy ps.now }
{
    why::check_at(4, ps.len() != 1, Reason::LengthWrong)?;
    let v = ps[0];
    why::check_at(6, 1 < v, Reason::ValueAbove1)?;
    why::check_busy(busy)?;
    why::check_later(v == 1 && !rules::addressed(r), Reason::NoAddressForPower)
}

// 0x0006 Set Discoverable.
pub fn set_discoverable(r: RadioSettings, busy: bool, ps: &[u8]) -> Result<(), Objection>
    ensures { result ≡ why_radio set_discoverable r busy ps.now }
{
    why::check_at(4, ps.len() != 3, Reason::LengthWrong)?;
    let v = ps[0];
    let timeout = octets::u16_at(ps, 1);
    why::check_at(6, 2 < v, Reason::ValueAbove2)?;
    why::check_at(7, v == 0 && timeout != 0, Reason::TimeoutWithValue0)?;
    why::check_at(7, v == 2 && timeout == 0, Reason::NoTimeoutWithValue2)?;
    why::check_later(
        !rules::bredr_supported(r.hardware),
        Reason::BredrNotSupported,
    )?;
    why::check_later(
        !r.powered && timeout != 0,
        Reason::DiscoverableTimeoutUnpowered,
    )?;
    why::check_busy(busy)?;
    why::check_later(v != 0 && !r.connectable, Reason::NotConnectable)?;
    why::check_later(v != 0 && !r.bredr, Reason::BredrOff)
}

// 0x0007 Set Connectable.
pub fn set_connectable(r: RadioSettings, busy: bool, ps: &[u8]) -> Result<(), Objection>
    ensures { result ≡ why_radio set_connectable r busy ps.now }
{
    why::check_at(4, ps.len() != 1, Reason::LengthWrong)?;
    why::check_at(6, 1 < ps[0], Reason::ValueAbove1)?;
    why::check_busy(busy)
}

// 0x000D Set Low Energy.
pub fn set_low_energy(r: RadioSettings, busy: bool, ps: &[u8]) -> Result<(), Objection>
    ensures { result ≡ why_radio set_low_energy r busy ps.now }
{
    why::check_at(4, ps.len() != 1, Reason::LengthWrong)?;
    let v = ps[0];
    let bredr = rules::bredr_supported(r.hardware);
    why::check_at(6, 1 < v, Reason::ValueAbove1)?;
    why::check_later(!rules::le_supported(r.hardware), Reason::LeNotSupported)?;
    why::check_busy(busy)?;
    why::check_later(v != 1 && !bredr, Reason::LowEnergyNeeded)?;
    why::check_later(v != 1 && !r.bredr, Reason::BredrOff)
}

// 0x002A Set BR/EDR.
pub fn set_bredr(r: RadioSettings, busy: bool, ps: &[u8]) -> Result<(), Objection>
    ensures { result ≡ why_radio set_bredr r busy ps.now }
{
    why::check_at(4, ps.len() != 1, Reason::LengthWrong)?;
    let v = ps[0];
    let set = !octets::all_zero(&r.static_address);
    why::check_at(6, 1 < v, Reason::ValueAbove1)?;
    why::check_later(
        !rules::bredr_supported(r.hardware),
        Reason::BredrNotSupported,
    )?;
    why::check_later(!rules::le_supported(r.hardware), Reason::LeNotSupported)?;
    why::check_busy(busy)?;
    why::check_later(v != 1 && r.powered, Reason::PoweredForBredrOff)?;
    why::check_later(v == 1 && set, Reason::StaticAddressForBredr)?;
    why::check_later(!r.low_energy, Reason::LowEnergyOff)
}

// 0x002B Set Static Address.
pub fn set_static_address(r: RadioSettings, busy: bool, ps: &[u8]) -> Result<(), Objection>
    ensures { result ≡ why_radio set_static_address r busy ps.now }
{
    why::check_at(4, ps.len() != 6, Reason::LengthWrong)?;
    why::check_at(
        6,
        !rules::static_address_ok(ps),
        Reason::AddressNotStaticRandom,
    )?;
    why::check_later(!rules::le_supported(r.hardware), Reason::LeNotSupported)?;
    why::check_busy(busy)?;
    why::check_later(r.powered, Reason::PoweredForStaticAddress)
}

// 0x0009 Set Bondable.
pub fn set_bondable(ps: &[u8]) -> Result<(), Objection>
    ensures { (c : Controller) → result ≡ why_immediate set_bondable c ps.now }
{
    why::check_at(4, ps.len() != 1, Reason::LengthWrong)?;
    why::check_at(6, 1 < ps[0], Reason::ValueAbove1)
}

// Information and name

// 0x0004 Read Controller Information.
pub fn read_information(ps: &[u8]) -> Result<(), Objection>
    ensures { (c : Controller) → result ≡ why_immediate read_information c ps.now }
{
    why::check_at(4, ps.len() != 0, Reason::LengthWrong)
}

// 0x000F Set Local Name.
pub fn set_local_name(ps: &[u8]) -> Result<(), Objection>
    ensures { (c : Controller) → result ≡ why_immediate set_local_name c ps.now }
{
    why::check_at(4, ps.len() != 260, Reason::LengthWrong)?;
    why::check_at(6, ps[248] != 0, Reason::NameNotEnded)?;
    why::check_at(255, ps[259] != 0, Reason::ShortNameNotEnded)
}

// Tables

// Whether the table of UUIDs of a controller holds the UUID that the octets begin with.
fn holds_uuid(state: &[u8], index: u64, ps: &[u8]) -> bool
    requires { Ready state.now index × (16 ≤ length ps.now) }
    ensures { result ≡ Tables.holds (begins 16 ps.now) (table_of (controller_of state.now index).host 0) }
{
    let place = layout::table_place(index, 0);
    let size = records::size_of(0);
    table::find(state, place, size, ps, 16).is_some()
}

// Whether table k of a controller has no free slot.
fn full(state: &[u8], index: u64, k: usize) -> bool
    requires { Ready state.now index × (k < 6) }
    ensures { result ≡ Tables.full (table_of (controller_of state.now index).host k) }
{
    let place = layout::table_place(index, k);
    table::free_slot(state, place).is_none()
}

// 0x0010 Add UUID.
pub fn add_uuid(state: &[u8], index: u64, ps: &[u8]) -> Result<(), Objection>
    requires { Ready state.now index }
    ensures { result ≡ why_immediate add_uuid (controller_of state.now index) ps.now }
{
    why::check_at(4, ps.len() != 17, Reason::LengthWrong)?;
    why::check_at(6, octets::all_zero(&ps[..16]), Reason::UuidZero)?;
    let held = holds_uuid(state, index, ps);
    why::check_later(!held && full(state, index, 0), Reason::NoFreeSlot)
}

// 0x0011 Remove UUID.
pub fn remove_uuid(state: &[u8], index: u64, ps: &[u8]) -> Result<(), Objection>
    requires { Ready state.now index }
    ensures { result ≡ why_immediate remove_uuid (controller_of state.now index) ps.now }
{
    why::check_at(4, ps.len() != 16, Reason::LengthWrong)?;
    let all = octets::all_zero(ps);
    why::check_later(!all && !holds_uuid(state, index, ps), Reason::UuidAbsent)
}

// 0x001B Unpair Device, of a controller that is powered or not.
pub fn unpair_device(state: &[u8], index: u64, powered: bool, ps: &[u8]) -> Result<(), Objection>
    requires { Ready state.now index × (powered ≡ (controller_of state.now index).radio.powered) }
    ensures { result ≡ why_immediate unpair_device (controller_of state.now index) ps.now }
{
    why::check_at(4, ps.len() != 8, Reason::LengthWrong)?;
    why::check_at(12, 2 < ps[6], Reason::AddressTypeAbove2)?;
    why::check_at(13, 1 < ps[7], Reason::DisconnectAbove1)?;
    why::check_later(!powered, Reason::Unpowered)?;
    why::check_later(!keys::paired(state, index, ps), Reason::NoKeyOfDevice)
}

// The address and type of a device to block or unblock.
fn blocked_values(ps: &[u8]) -> Result<(), Objection>
    requires { length ps.now ≡ 7 }
    ensures { result ≡ first_wrong (in_packet (blocked_rule.checks ps.now)) }
{
    why::check_at(6, octets::all_zero(&ps[..6]), Reason::AddressZero)?;
    why::check_at(12, 2 < ps[6], Reason::AddressTypeAbove2)
}

// 0x0026 Block Device.
pub fn block_device(state: &[u8], index: u64, ps: &[u8]) -> Result<(), Objection>
    requires { Ready state.now index }
    ensures { result ≡ why_immediate block_device (controller_of state.now index) ps.now }
{
    why::check_at(4, ps.len() != 7, Reason::LengthWrong)?;
    blocked_values(ps)?;
    why::check_later(keys::holds_key(state, index, 4, ps), Reason::AlreadyBlocked)?;
    why::check_later(full(state, index, 4), Reason::NoFreeSlot)
}

// 0x0027 Unblock Device.
pub fn unblock_device(state: &[u8], index: u64, ps: &[u8]) -> Result<(), Objection>
    requires { Ready state.now index }
    ensures { result ≡ why_immediate unblock_device (controller_of state.now index) ps.now }
{
    why::check_at(4, ps.len() != 7, Reason::LengthWrong)?;
    blocked_values(ps)?;
    why::check_later(!keys::holds_key(state, index, 4, ps), Reason::NotBlocked)
}

// The address, type and action of a device to add.
fn device_values(ps: &[u8]) -> Result<(), Objection>
    requires { length ps.now ≡ 8 }
    ensures { result ≡ first_wrong (in_packet (device_rule.checks ps.now)) }
{
    why::check_at(6, octets::all_zero(&ps[..6]), Reason::AddressZero)?;
    why::check_at(12, 2 < ps[6], Reason::AddressTypeAbove2)?;
    why::check_at(13, 2 < ps[7], Reason::ActionAbove2)?;
    why::check_at(13, ps[6] == 0 && ps[7] != 1, Reason::ActionNot1ForBredr)
}

// 0x0033 Add Device.
pub fn add_device(state: &[u8], index: u64, ps: &[u8]) -> Result<(), Objection>
    requires { Ready state.now index }
    ensures { result ≡ why_immediate add_device (controller_of state.now index) ps.now }
{
    why::check_at(4, ps.len() != 8, Reason::LengthWrong)?;
    device_values(ps)?;
    let held = keys::holds_key(state, index, 5, ps);
    why::check_later(!held && full(state, index, 5), Reason::NoFreeSlot)
}

// 0x0034 Remove Device.
pub fn remove_device(state: &[u8], index: u64, ps: &[u8]) -> Result<(), Objection>
    requires { Ready state.now index }
    ensures { result ≡ why_immediate remove_device (controller_of state.now index) ps.now }
{
    why::check_at(4, ps.len() != 7, Reason::LengthWrong)?;
    let zero = octets::all_zero(&ps[..6]);
    let all = octets::all_zero(ps);
    why::check_at(12, 2 < ps[6], Reason::AddressTypeAbove2)?;
    why::check_at(12, zero && ps[6] != 0, Reason::AddressZeroNotBredr)?;
    why::check_later(
        !all && !keys::holds_key(state, index, 5, ps),
        Reason::DeviceAbsent,
    )
}

// Advertising

// 0x003E Add Advertising, on these radio settings.
pub fn add_advertising(r: RadioSettings, ps: &[u8]) -> Result<(), Objection>
    ensures { (c : Controller) → c.radio ≡ r → result ≡ why_immediate add_advertising c ps.now }
{
    why::check_at(4, ps.len() < 11, Reason::LengthWrong)?;
    why::check_at(16, !advertising::sized(ps), Reason::LengthWrong)?;
    let timeout = octets::u16_at(ps, 7);
    why::check_at(6, !(1 <= ps[0] && ps[0] <= 5), Reason::InstanceNot1To5)?;
    why::check_at(7, !octets::all_zero(&ps[1..5]), Reason::AdvertisingFlags)?;
    why::check_at(15, 31 < ps[9], Reason::AdvDataAbove31)?;
    why::check_at(16, 31 < ps[10], Reason::ScanRspAbove31)?;
    why::check_later(!r.low_energy, Reason::LowEnergyOff)?;
    why::check_later(
        !r.powered && timeout != 0,
        Reason::AdvertisingTimeoutUnpowered,
    )
}

// 0x003F Remove Advertising, of the instances of this schedule.
pub fn remove_advertising(s: Schedule, ps: &[u8]) -> Result<(), Objection>
    ensures { (c : Controller) → c.host.advertising.schedule ≡ s → result ≡ why_immediate remove_advertising c ps.now }
{
    why::check_at(4, ps.len() != 1, Reason::LengthWrong)?;
    why::check_later(!advertising::removable(s, ps[0]), Reason::InstanceAbsent)
}
