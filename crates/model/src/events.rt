// The codes of the events, as specs/Events.antt has them.
pub const COMMAND_COMPLETE: u64 = 0x0001;

pub const COMMAND_STATUS: u64 = 0x0002;

pub const INDEX_ADDED: u64 = 0x0004;

pub const INDEX_REMOVED: u64 = 0x0005;

pub const NEW_SETTINGS: u64 = 0x0006;

pub const CLASS_CHANGED: u64 = 0x0007;

pub const LOCAL_NAME_CHANGED: u64 = 0x0008;

pub const DEVICE_BLOCKED: u64 = 0x0014;

pub const DEVICE_UNBLOCKED: u64 = 0x0015;

pub const DEVICE_UNPAIRED: u64 = 0x0016;

pub const DEVICE_ADDED: u64 = 0x001A;

pub const DEVICE_REMOVED: u64 = 0x001B;

pub const ADVERTISING_ADDED: u64 = 0x0023;

pub const ADVERTISING_REMOVED: u64 = 0x0024;
