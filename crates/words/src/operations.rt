// The values of an entry's OPERATION (000, table 1.17; and for RESTORE, table 1.19, where 0 and 2 are NOP, 1 and 3 RESTORE). Numbers and no enum: a field holds
// any bits, and 1 has one name in an export's list and another in RESTORE's.
pub const NOP: u64 = 0;

pub const MIGRATE: u64 = 1;

pub const CANCEL: u64 = 2;

pub const REMIGRATE: u64 = 3;

pub const RESTORE: u64 = 1;
