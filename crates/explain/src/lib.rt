// What is found of a packet, by its code: the command's function, and before it the code, the index and, of a key list, the length.
#![tactic(auto, using(why::proofs::Orders::check_steps), unfolding(why::specs::Findings::why_general, why::specs::Findings::first_wrong, crate::specs::Counts::count_octet))]

ghost use Rattle.std.specs.Prelude.{◌≡◌, true, ◌≤◌, length};
ghost use Rattle.model.specs.Lengths as Lengths;
ghost use Rattle.model.specs.State.{Controller};
ghost use Rattle.model.specs.Immediate.{link_key_list, long_term_key_list, identity_key_list, load_keys};
ghost use Rattle.model.specs.Commands.{rule};
ghost use Rattle.model.specs.Layout.{decode};
ghost use Rattle.model.specs.Meanings.{state_ok};
ghost use Rattle.layout.specs.Places.{Ready, open_at};
ghost use Rattle.dispatch.specs.Commands.{controller_code};
ghost use Rattle.why.specs.Findings.{is_open, why_by, why_general, why_immediate};
ghost use Rattle.explain.specs.Counts.{count_octet};

use dispatch::command::{Command, ControllerCommand};
use model::{Hardware, Place, Reason};
use why::Objection;

// The octet that a wrong length of a list is told at: that of its count, where the count is there, else that of the length field.
fn count_octet(ps: &[u8], at: usize) -> usize
    requires { at ≤ 1 }
    ensures { result ≡ count_octet at ps.now }
{
    if ps.len() < at + 2 { 4 } else { 6 + at }
}

// 0x0012 Load Link Keys.
fn load_link_keys(hardware: Hardware, ps: &[u8]) -> Result<(), Objection>
    ensures { (c : Controller) → c.radio.hardware ≡ hardware → result ≡ why_immediate (load_keys link_key_list) c ps.now }
{
    let octet = count_octet(ps, 1);
    why::check_at(octet, !keys::list_fits(ps, 1, 25), Reason::LengthWrong)?;
    faults::link_keys(hardware, ps)
}

// 0x0013 Load Long Term Keys.
fn load_long_term_keys(hardware: Hardware, ps: &[u8]) -> Result<(), Objection>
    ensures { (c : Controller) → c.radio.hardware ≡ hardware → result ≡ why_immediate (load_keys long_term_key_list) c ps.now }
{
    let octet = count_octet(ps, 0);
    why::check_at(octet, !keys::list_fits(ps, 0, 36), Reason::LengthWrong)?;
    faults::long_term_keys(hardware, ps)
}

// 0x0030 Load Identity Resolving Keys.
fn load_identity_keys(hardware: Hardware, ps: &[u8]) -> Result<(), Objection>
    ensures { (c : Controller) → c.radio.hardware ≡ hardware → result ≡ why_immediate (load_keys identity_key_list) c ps.now }
{
    let octet = count_octet(ps, 0);
    why::check_at(octet, !keys::list_fits(ps, 0, 23), Reason::LengthWrong)?;
    faults::identity_keys(hardware, ps)
}

// Whether a command is under way at an index.
fn busy_at(state: &[u8], index: u64) -> bool
    requires { Ready state.now index }
    ensures { result ≡ is_open (open_at state.now index) }
{
    layout::open_code(state, index) != 0
}

// A command to a present controller.
fn controller_finding(
    state: &[u8],
    index: u64,
    command: ControllerCommand,
    ps: &[u8],
) -> Result<(), Objection>
    requires { Ready state.now index }
    ensures { result ≡ why_by (decode state.now) index ps.now (rule (controller_code command)) }
{
    let radio = layout::settings_at(state, index).radio;
    let busy = busy_at(state, index);
    match command {
        ControllerCommand::ReadInformation => findings::read_information(ps),
        ControllerCommand::SetPowered => findings::set_powered(radio, busy, ps),
        ControllerCommand::SetDiscoverable => findings::set_discoverable(radio, busy, ps),
        ControllerCommand::SetConnectable => findings::set_connectable(radio, busy, ps),
        ControllerCommand::SetBondable => findings::set_bondable(ps),
        ControllerCommand::SetLowEnergy => findings::set_low_energy(radio, busy, ps),
        ControllerCommand::SetLocalName => findings::set_local_name(ps),
        ControllerCommand::AddUuid => findings::add_uuid(state, index, ps),
        ControllerCommand::RemoveUuid => findings::remove_uuid(state, index, ps),
        ControllerCommand::LoadLinkKeys => load_link_keys(radio.hardware, ps),
        ControllerCommand::LoadLongTermKeys => load_long_term_keys(radio.hardware, ps),
        ControllerCommand::UnpairDevice => findings::unpair_device(state, index, radio.powered, ps),
        ControllerCommand::BlockDevice => findings::block_device(state, index, ps),
        ControllerCommand::UnblockDevice => findings::unblock_device(state, index, ps),
        ControllerCommand::SetBredr => findings::set_bredr(radio, busy, ps),
        ControllerCommand::SetStaticAddress => findings::set_static_address(radio, busy, ps),
        ControllerCommand::LoadIdentityKeys => load_identity_keys(radio.hardware, ps),
        ControllerCommand::AddDevice => findings::add_device(state, index, ps),
        ControllerCommand::RemoveDevice => findings::remove_device(state, index, ps),
        ControllerCommand::AddAdvertising => findings::add_advertising(radio, ps),
        ControllerCommand::RemoveAdvertising => findings::remove_advertising(
            layout::schedule_at(state, index),
            ps,
        ),
    }
}

// A command to the hub itself.
fn hub_finding(index: u64, ps: &[u8]) -> Result<(), Objection>
    ensures { result ≡ why_general index ps.now }
{
    why::check_at(2, index != 0xFFFF, Reason::IndexNotNone)?;
    why::check_at(4, !ps.is_empty(), Reason::LengthWrong)
}

// What is found of a packet by its parts, on a well-formed state.
pub fn find(state: &[u8], index: u64, code: u64, ps: &[u8]) -> Result<(), Objection>
    requires { (state_ok state.now ≡ true) × (length state.now ≡ Lengths.state) }
    ensures { result ≡ why_by (decode state.now) index ps.now (rule code) }
{
    match Command::try_from(code) {
        Ok(Command::ToHub(_)) => hub_finding(index, ps),
        Ok(Command::ToController(command)) => {
            why::check_at(2, !layout::present(state, index), Reason::ControllerAbsent)?;
            controller_finding(state, index, command, ps)
        }
        Err(_) => Err(Objection::Wrong(Reason::CodeUnknown, Place::AtOctet(0))),
    }
}
