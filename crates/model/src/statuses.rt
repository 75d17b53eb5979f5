// The statuses of replies, as specs/Statuses.antt has them.
pub const SUCCESS: u8 = 0x00;

pub const UNKNOWN_COMMAND: u8 = 0x01;

pub const FAILED: u8 = 0x03;

pub const NOT_PAIRED: u8 = 0x06;

pub const NO_RESOURCES: u8 = 0x07;

pub const BUSY: u8 = 0x0A;

pub const REJECTED: u8 = 0x0B;

pub const NOT_SUPPORTED: u8 = 0x0C;

pub const INVALID_PARAMETERS: u8 = 0x0D;

pub const NOT_POWERED: u8 = 0x0F;

pub const INVALID_INDEX: u8 = 0x11;

pub const HIGHEST: u64 = 0x14;
