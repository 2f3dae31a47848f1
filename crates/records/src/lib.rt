// Word 0 of a page record: seven runs that fill the word. Word 1, the mark, is one number and has no runs.

#![tactic(auto, unfolding(crate::specs::Record::record_of, crate::specs::Record::plain))]

ghost use Rattle.std.specs.Prelude.{◌≡◌};
ghost use Rattle.words.specs.Runs.{low};
ghost use Rattle.records.specs.Record.{record_of, record_word, RecordFits, plain};
ghost use Rattle.records.specs.Record.{with_state, with_dirty, with_cached, with_stamp, with_migrated};

use words::bits::{placed, put, read};

#[derive(Clone, Copy, Debug, PartialEq, Eq)]
pub struct Record {
    pub state: u8,
    pub dirty: bool,
    pub cached: bool,
    pub spare10: u64,
    pub stamp: u64,
    // The last migration epoch.
    pub migrated: u64,
    pub spare48: u64,
}

// The word, taken apart.
impl From<u64> for Record {
    ghost from_gives = { λ w p. (p ≡ record_of w) × RecordFits p };

    fn from(w: u64) -> Self {
        Self {
            state: read::<7, 0>(w) as u8,
            dirty: read::<8, 8>(w) == 1,
            cached: read::<9, 9>(w) == 1,
            spare10: read::<15, 10>(w),
            stamp: read::<31, 16>(w),
            migrated: read::<47, 32>(w),
            spare48: read::<63, 48>(w),
        }
    }
}

// The word whose runs these are: each number's low bits.
impl From<Record> for u64 {
    ghost from_gives = { λ p w. w ≡ record_word p };

    fn from(p: Record) -> Self {
        placed::<7, 0>(u64::from(p.state))
            | placed::<8, 8>(u64::from(p.dirty))
            | placed::<9, 9>(u64::from(p.cached))
            | placed::<15, 10>(p.spare10)
            | placed::<31, 16>(p.stamp)
            | placed::<47, 32>(p.migrated)
            | placed::<63, 48>(p.spare48)
    }
}

// No spare bit is set.
pub fn is_plain(w: u64) -> bool
    ensures { result ≡ plain (record_of w) }
{
    read::<15, 10>(w) == 0 && read::<63, 48>(w) == 0
}

// Each setter gives the word with another value in its field, a number's low bits, and every other bit as it was.

pub fn set_state(w: u64, v: u8) -> u64
    ensures { record_of result ≡ with_state (record_of w) v }
{
    put::<7, 0>(w, u64::from(v))
}

pub fn set_dirty(w: u64, v: bool) -> u64
    ensures { record_of result ≡ with_dirty (record_of w) v }
{
    put::<8, 8>(w, u64::from(v))
}

pub fn set_cached(w: u64, v: bool) -> u64
    ensures { record_of result ≡ with_cached (record_of w) v }
{
    put::<9, 9>(w, u64::from(v))
}

pub fn set_stamp(w: u64, v: u64) -> u64
    ensures { record_of result ≡ with_stamp (record_of w) (low 16 v) }
{
    put::<31, 16>(w, v)
}

pub fn set_migrated(w: u64, v: u64) -> u64
    ensures { record_of result ≡ with_migrated (record_of w) (low 16 v) }
{
    put::<47, 32>(w, v)
}
