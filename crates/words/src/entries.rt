// A GPA list entry (000, table 1.10): eleven runs that fill the word.

#![tactic(auto, unfolding(crate::specs::Entry::entry_of))]

ghost use Rattle.std.specs.Prelude.{◌≡◌};
ghost use Rattle.words.specs.Runs.{low};
ghost use Rattle.words.specs.Entry.{entry_of, entry_word, EntryFits};
ghost use Rattle.words.specs.Entry.{with_level, with_pending, with_state, with_l2_map, with_mig_type, with_gpa, with_operation, with_status};

use crate::bits::{placed, put, read};

#[derive(Clone, Copy, Debug, PartialEq, Eq)]
pub struct Entry {
    pub level: u64,
    pub pending: bool,
    pub state: u64,
    pub reserved5: u64,
    pub l2_map: u64,
    pub mig_type: u64,
    // Bits 51:12 of the byte address: the page's number.
    pub gpa: u64,
    pub operation: u64,
    pub reserved54: u64,
    pub status: u64,
    pub reserved61: u64,
}

// The word, taken apart.
impl From<u64> for Entry {
    ghost from_gives = { λ w e. (e ≡ entry_of w) × EntryFits e };

    fn from(w: u64) -> Self {
        Self {
            level: read::<1, 0>(w),
            pending: read::<2, 2>(w) == 1,
            state: read::<4, 3>(w),
            reserved5: read::<6, 5>(w),
            l2_map: read::<9, 7>(w),
            mig_type: read::<11, 10>(w),
            gpa: read::<51, 12>(w),
            operation: read::<53, 52>(w),
            reserved54: read::<55, 54>(w),
            status: read::<60, 56>(w),
            reserved61: read::<63, 61>(w),
        }
    }
}

// The word whose runs these are: each number's low bits.
impl From<Entry> for u64 {
    ghost from_gives = { λ e w. w ≡ entry_word e };

    fn from(e: Entry) -> Self {
        placed::<1, 0>(e.level)
            | placed::<2, 2>(u64::from(e.pending))
            | placed::<4, 3>(e.state)
            | placed::<6, 5>(e.reserved5)
            | placed::<9, 7>(e.l2_map)
            | placed::<11, 10>(e.mig_type)
            | placed::<51, 12>(e.gpa)
            | placed::<53, 52>(e.operation)
            | placed::<55, 54>(e.reserved54)
            | placed::<60, 56>(e.status)
            | placed::<63, 61>(e.reserved61)
    }
}

// Each setter gives the word with another value in its field, a number's low bits, and every other bit as it was.

pub fn set_level(w: u64, v: u64) -> u64
    ensures { entry_of result ≡ with_level (entry_of w) (low 2 v) }
{
    put::<1, 0>(w, v)
}

pub fn set_pending(w: u64, v: bool) -> u64
    ensures { entry_of result ≡ with_pending (entry_of w) v }
{
    put::<2, 2>(w, u64::from(v))
}

pub fn set_state(w: u64, v: u64) -> u64
    ensures { entry_of result ≡ with_state (entry_of w) (low 2 v) }
{
    put::<4, 3>(w, v)
}

pub fn set_l2_map(w: u64, v: u64) -> u64
    ensures { entry_of result ≡ with_l2_map (entry_of w) (low 3 v) }
{
    put::<9, 7>(w, v)
}

pub fn set_mig_type(w: u64, v: u64) -> u64
    ensures { entry_of result ≡ with_mig_type (entry_of w) (low 2 v) }
{
    put::<11, 10>(w, v)
}

pub fn set_gpa(w: u64, v: u64) -> u64
    ensures { entry_of result ≡ with_gpa (entry_of w) (low 40 v) }
{
    put::<51, 12>(w, v)
}

pub fn set_operation(w: u64, v: u64) -> u64
    ensures { entry_of result ≡ with_operation (entry_of w) (low 2 v) }
{
    put::<53, 52>(w, v)
}

pub fn set_status(w: u64, v: u64) -> u64
    ensures { entry_of result ≡ with_status (entry_of w) (low 5 v) }
{
    put::<60, 56>(w, v)
}
