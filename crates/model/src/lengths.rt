// Lengths in octets, as specs/Lengths.antt has them.
pub const STATE: usize = 18656;

pub const BLOCK: usize = 4372;

pub const BLOCKS_END: usize = 17492;

pub const WAITING: usize = 1164;

pub const LONGEST_KEPT: usize = 1160;

pub const LONG_HEAD: usize = 10;

pub const REPLY_BUFFER: usize = 1024;

pub const LARGEST_IMAGE: usize = 16014;
