// Places in the block of a controller (docs/STATE-LAYOUT.md): the open command, what plug gave, the settings, the names, the six tables, the
// advertising: schedule, Adv_Data and Scan_Rsp.
pub const OPEN_CODE: usize = 1;

pub const OPEN_PARAMETERS: usize = 3;

pub const VERSION: usize = 6;

pub const MANUFACTURER: usize = 7;

pub const SUPPORTED: usize = 9;

pub const PUBLIC_ADDRESS: usize = 13;

pub const POWERED: usize = 19;

pub const CONNECTABLE: usize = 20;

pub const DISCOVERABLE: usize = 21;

pub const BONDABLE: usize = 22;

pub const BREDR: usize = 23;

pub const LOW_ENERGY: usize = 24;

pub const TIMER: usize = 25;

pub const STATIC_ADDRESS: usize = 27;

pub const NAME: usize = 33;

pub const TABLES: usize = 293;

pub const ADVERTISING: usize = 4029;

pub const TIMEOUTS: usize = 4039;

pub const ON_AIR: usize = 4049;

pub const LEFT: usize = 4050;

pub const ADV_DATA: usize = 4052;

pub const SCAN_RSP: usize = 4212;
