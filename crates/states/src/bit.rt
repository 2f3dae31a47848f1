// The bit of each state in a mask.
use words::states;

pub(crate) const FREE: u64 = 1 << states::FREE;

pub(crate) const BLOCKED: u64 = 1 << states::BLOCKED;

pub(crate) const PENDING: u64 = 1 << states::PENDING;

pub(crate) const PENDING_BLOCKED: u64 = 1 << states::PENDING_BLOCKED;

pub(crate) const MAPPED: u64 = 1 << states::MAPPED;

pub(crate) const EXPORTED: u64 = 1 << states::EXPORTED;

pub(crate) const EXPORTED_MODIFIED: u64 = 1 << states::EXPORTED_MODIFIED;

pub(crate) const EXPORTED_BLOCKED: u64 = 1 << states::EXPORTED_BLOCKED;

pub(crate) const EXPORTED_REMOVED: u64 = 1 << states::EXPORTED_REMOVED;

pub(crate) const PENDING_EXPORTED: u64 = 1 << states::PENDING_EXPORTED;

pub(crate) const PENDING_EXPORTED_MODIFIED: u64 = 1 << states::PENDING_EXPORTED_MODIFIED;

pub(crate) const PENDING_EXPORTED_BLOCKED: u64 = 1 << states::PENDING_EXPORTED_BLOCKED;
