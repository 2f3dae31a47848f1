// The state numbers of a Secure EPT entry (000, tables 1.7 and 1.8). Numbers and no enum: a record holds any byte, and `class_of` and `is_strange` promise
// something of each of the 256.

// Those that the base uses. A record in any other state is strange.
pub const FREE: u8 = 0;

pub const BLOCKED: u8 = 1;

pub const PENDING: u8 = 2;

pub const PENDING_BLOCKED: u8 = 3;

pub const MAPPED: u8 = 4;

pub const EXPORTED: u8 = 24;

pub const EXPORTED_MODIFIED: u8 = 25;

pub const EXPORTED_BLOCKED: u8 = 26;

pub const EXPORTED_REMOVED: u8 = 27;

pub const PENDING_EXPORTED: u8 = 29;

pub const PENDING_EXPORTED_MODIFIED: u8 = 30;

pub const PENDING_EXPORTED_BLOCKED: u8 = 31;

// The others.
pub const REMOVED: u8 = 5;

pub const REMOVE_IN_PROGRESS: u8 = 6;

pub const BLOCKEDW: u8 = 8;

pub const EXPORTED_BLOCKEDW: u8 = 9;

pub const EXPORTED_DIRTY: u8 = 11;

pub const EXPORTED_DIRTY_BLOCKEDW: u8 = 12;

pub const PENDING_BLOCKEDW: u8 = 16;

pub const PENDING_EXPORTED_BLOCKEDW: u8 = 17;

pub const PENDING_EXPORTED_DIRTY: u8 = 19;

pub const PENDING_EXPORTED_DIRTY_BLOCKEDW: u8 = 20;

pub const EXPORTED_REMOVE_IN_PROGRESS: u8 = 28;

pub const MMIO_MAPPED: u8 = 32;

pub const MMIO_BLOCKED: u8 = 33;

pub const MMIO_PENDING: u8 = 34;

pub const L2_FREE: u8 = 64;

pub const L2_BLOCKED: u8 = 65;

pub const L2_MAPPED: u8 = 68;

pub const L2_MMIO_MAPPED: u8 = 96;

pub const L2_MMIO_BLOCKED: u8 = 97;

pub const NL_BLOCKED: u8 = 129;

pub const NL_MAPPED: u8 = 132;

pub const L2_NL_BLOCKED: u8 = 193;

pub const L2_NL_MAPPED: u8 = 196;
