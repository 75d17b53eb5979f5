// A command to the function that serves it.
#![tactic(auto)]

pub mod command;
pub mod long;

ghost use Rattle.std.specs.Prelude.{◌≡◌, true, ◌≤◌, length};
ghost use Rattle.model.specs.Lengths as Lengths;
ghost use Rattle.model.specs.Meanings.{state_ok};
ghost use Rattle.layout.specs.Places.{Ready};
ghost use Rattle.replies.specs.Answers.{Gives};
ghost use Rattle.outcomes.specs.Outcomes.{any_command};
ghost use Rattle.dispatch.specs.Commands.{controller_code, hub_code};

use command::{Command, ControllerCommand, HubCommand};
use model::{Answer, statuses};

// A command to the hub itself.
fn hub_command(state: &[u8], index: u64, command: HubCommand, ps: &[u8], reply: &mut [u8]) -> Answer
    requires { (state_ok state.now ≡ true) × (Lengths.reply_buffer ≤ length reply.old) }
    ensures { Gives (any_command state.now index (hub_code command) ps.now) result reply.old reply.new state.now }
{
    match command {
        HubCommand::ReadVersion => information::read_version(state, index, ps, reply),
        HubCommand::ReadCommands => information::read_commands(state, index, ps, reply),
        HubCommand::ReadIndexes => information::read_indexes(state, index, ps, reply),
    }
}

// A command to a present controller.
fn controller_command(
    state: &mut [u8],
    index: u64,
    command: ControllerCommand,
    ps: &[u8],
    reply: &mut [u8],
) -> Answer
    requires { Ready state.old index × (Lengths.reply_buffer ≤ length reply.old) }
    ensures { Gives (any_command state.old index (controller_code command) ps.now) result reply.old reply.new state.new }
{
    match command {
        ControllerCommand::ReadInformation => information::read_information(
            state, index, ps, reply,
        ),
        ControllerCommand::SetPowered => settings::set_powered(state, index, ps, reply),
        ControllerCommand::SetDiscoverable => settings::set_discoverable(state, index, ps, reply),
        ControllerCommand::SetConnectable => settings::set_connectable(state, index, ps, reply),
        ControllerCommand::SetBondable => settings::set_bondable(state, index, ps, reply),
        ControllerCommand::SetLowEnergy => settings::set_low_energy(state, index, ps, reply),
        ControllerCommand::SetLocalName => information::set_local_name(state, index, ps, reply),
        ControllerCommand::AddUuid => devices::add_uuid(state, index, ps, reply),
        ControllerCommand::RemoveUuid => devices::remove_uuid(state, index, ps, reply),
        ControllerCommand::LoadLinkKeys => keys::load_link_keys(state, index, ps, reply),
        ControllerCommand::LoadLongTermKeys => keys::load_long_term_keys(state, index, ps, reply),
        ControllerCommand::UnpairDevice => keys::unpair_device(state, index, ps, reply),
        ControllerCommand::BlockDevice => devices::block_device(state, index, ps, reply),
        ControllerCommand::UnblockDevice => devices::unblock_device(state, index, ps, reply),
        ControllerCommand::SetBredr => settings::set_bredr(state, index, ps, reply),
        ControllerCommand::SetStaticAddress => settings::set_static_address(
            state, index, ps, reply,
        ),
        ControllerCommand::LoadIdentityKeys => keys::load_identity_keys(state, index, ps, reply),
        ControllerCommand::AddDevice => devices::add_device(state, index, ps, reply),
        ControllerCommand::RemoveDevice => devices::remove_device(state, index, ps, reply),
        ControllerCommand::AddAdvertising => advertising::add_advertising(state, index, ps, reply),
        ControllerCommand::RemoveAdvertising => advertising::remove_advertising(
            state, index, ps, reply,
        ),
    }
}

// A command by its parts, on a well-formed state and with room for a reply.
pub fn dispatch(state: &mut [u8], index: u64, code: u64, ps: &[u8], reply: &mut [u8]) -> Answer
    requires { (state_ok state.old ≡ true) × (length state.old ≡ Lengths.state) × (Lengths.reply_buffer ≤ length reply.old) }
    ensures { Gives (any_command state.old index code ps.now) result reply.old reply.new state.new }
{
    match Command::try_from(code) {
        Ok(Command::ToHub(command)) => hub_command(state, index, command, ps, reply),
        Ok(Command::ToController(command)) => {
            if !layout::present(state, index) {
                return replies::refuse(reply, index, code, statuses::INVALID_INDEX);
            }
            controller_command(state, index, command, ps, reply)
        }
        Err(_) => replies::refuse(reply, index, code, statuses::UNKNOWN_COMMAND),
    }
}
