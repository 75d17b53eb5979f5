// The codes of the commands, as specs/Codes.antt has them.
pub const READ_VERSION: u64 = 0x0001;

pub const READ_COMMANDS: u64 = 0x0002;

pub const READ_INDEXES: u64 = 0x0003;

pub const READ_INFORMATION: u64 = 0x0004;

pub const SET_POWERED: u64 = 0x0005;

pub const SET_DISCOVERABLE: u64 = 0x0006;

pub const SET_CONNECTABLE: u64 = 0x0007;

pub const SET_BONDABLE: u64 = 0x0009;

pub const SET_LOW_ENERGY: u64 = 0x000D;

pub const SET_LOCAL_NAME: u64 = 0x000F;

pub const ADD_UUID: u64 = 0x0010;

pub const REMOVE_UUID: u64 = 0x0011;

pub const LOAD_LINK_KEYS: u64 = 0x0012;

pub const LOAD_LONG_TERM_KEYS: u64 = 0x0013;

pub const UNPAIR_DEVICE: u64 = 0x001B;

pub const BLOCK_DEVICE: u64 = 0x0026;

pub const UNBLOCK_DEVICE: u64 = 0x0027;

pub const SET_BREDR: u64 = 0x002A;

pub const SET_STATIC_ADDRESS: u64 = 0x002B;

pub const LOAD_IDENTITY_KEYS: u64 = 0x0030;

pub const ADD_DEVICE: u64 = 0x0033;

pub const REMOVE_DEVICE: u64 = 0x0034;

pub const ADD_ADVERTISING: u64 = 0x003E;

pub const REMOVE_ADVERTISING: u64 = 0x003F;
