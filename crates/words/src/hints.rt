// The values of an entry's STATE: a scan's hint about the page (000, table 1.13). Numbers and no enum, since a field holds any bits, and `hint_of` promises a
// number for every state's number.
pub const NOT_EXPORTED: u64 = 0;

pub const EXPORTED_MODIFIED: u64 = 1;

pub const EXPORTED_BLOCKED: u64 = 2;

pub const EXPORTED_REMOVED: u64 = 3;
