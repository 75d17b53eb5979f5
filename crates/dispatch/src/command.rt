// The commands of the hub, and the codes that name them in a packet.
ghost use Rattle.dispatch.specs.Commands.{Names};

use model::codes;

// A command to the hub itself, whose packet has no controller's index.
#[derive(Clone, Copy)]
pub enum HubCommand {
    ReadVersion,
    ReadCommands,
    ReadIndexes,
}

// A command to one controller.
#[derive(Clone, Copy)]
pub enum ControllerCommand {
    ReadInformation,
    SetPowered,
    SetDiscoverable,
    SetConnectable,
    SetBondable,
    SetLowEnergy,
    SetLocalName,
    AddUuid,
    RemoveUuid,
    LoadLinkKeys,
    LoadLongTermKeys,
    UnpairDevice,
    BlockDevice,
    UnblockDevice,
    SetBredr,
    SetStaticAddress,
    LoadIdentityKeys,
    AddDevice,
    RemoveDevice,
    AddAdvertising,
    RemoveAdvertising,
}

// A command, by whom it is to.
#[derive(Clone, Copy)]
pub enum Command {
    ToHub(HubCommand),
    ToController(ControllerCommand),
}

// A code that no command has.
#[derive(Clone, Copy)]
pub struct UnknownCode;

impl TryFrom<u64> for Command {
    type Error = UnknownCode;

    ghost try_from_gives = { Names };

    fn try_from(code: u64) -> Result<Self, UnknownCode> {
        Ok(match code {
            codes::READ_VERSION => Command::ToHub(HubCommand::ReadVersion),
            codes::READ_COMMANDS => Command::ToHub(HubCommand::ReadCommands),
            codes::READ_INDEXES => Command::ToHub(HubCommand::ReadIndexes),
            codes::READ_INFORMATION => Command::ToController(ControllerCommand::ReadInformation),
            codes::SET_POWERED => Command::ToController(ControllerCommand::SetPowered),
            codes::SET_DISCOVERABLE => Command::ToController(ControllerCommand::SetDiscoverable),
            codes::SET_CONNECTABLE => Command::ToController(ControllerCommand::SetConnectable),
            codes::SET_BONDABLE => Command::ToController(ControllerCommand::SetBondable),
            codes::SET_LOW_ENERGY => Command::ToController(ControllerCommand::SetLowEnergy),
            codes::SET_LOCAL_NAME => Command::ToController(ControllerCommand::SetLocalName),
            codes::ADD_UUID => Command::ToController(ControllerCommand::AddUuid),
            codes::REMOVE_UUID => Command::ToController(ControllerCommand::RemoveUuid),
            codes::LOAD_LINK_KEYS => Command::ToController(ControllerCommand::LoadLinkKeys),
            codes::LOAD_LONG_TERM_KEYS => Command::ToController(
                ControllerCommand::LoadLongTermKeys,
            ),
            codes::UNPAIR_DEVICE => Command::ToController(ControllerCommand::UnpairDevice),
            codes::BLOCK_DEVICE => Command::ToController(ControllerCommand::BlockDevice),
            codes::UNBLOCK_DEVICE => Command::ToController(ControllerCommand::UnblockDevice),
            codes::SET_BREDR => Command::ToController(ControllerCommand::SetBredr),
            codes::SET_STATIC_ADDRESS => Command::ToController(ControllerCommand::SetStaticAddress),
            codes::LOAD_IDENTITY_KEYS => Command::ToController(ControllerCommand::LoadIdentityKeys),
            codes::ADD_DEVICE => Command::ToController(ControllerCommand::AddDevice),
            codes::REMOVE_DEVICE => Command::ToController(ControllerCommand::RemoveDevice),
            codes::ADD_ADVERTISING => Command::ToController(ControllerCommand::AddAdvertising),
            codes::REMOVE_ADVERTISING => Command::ToController(
                ControllerCommand::RemoveAdvertising,
            ),
            _ => return Err(UnknownCode),
        })
    }
}
