// The info word of a GPA list (000, table 1.9): five runs that fill the word.

#![tactic(auto, unfolding(crate::specs::Info::info_of))]

ghost use Rattle.std.specs.Prelude.{◌≡◌};
ghost use Rattle.words.specs.Runs.{low};
ghost use Rattle.words.specs.Info.{info_of, info_word, InfoFits, with_format, with_first, with_hpa, with_last};

use crate::bits::{placed, put, read};

#[derive(Clone, Copy, Debug, PartialEq, Eq)]
pub struct Info {
    pub format: u64,
    pub first: u64,
    pub hpa: u64,
    pub zero52: u64,
    pub last: u64,
}

// The word, taken apart.
impl From<u64> for Info {
    ghost from_gives = { λ w x. (x ≡ info_of w) × InfoFits x };

    fn from(w: u64) -> Self {
        Self {
            format: read::<2, 0>(w),
            first: read::<11, 3>(w),
            hpa: read::<51, 12>(w),
            zero52: read::<54, 52>(w),
            last: read::<63, 55>(w),
        }
    }
}

// The word whose runs these are: each number's low bits.
impl From<Info> for u64 {
    ghost from_gives = { λ x w. w ≡ info_word x };

    fn from(x: Info) -> Self {
        placed::<2, 0>(x.format)
            | placed::<11, 3>(x.first)
            | placed::<51, 12>(x.hpa)
            | placed::<54, 52>(x.zero52)
            | placed::<63, 55>(x.last)
    }
}

// Each setter gives the word with another value in its field, a number's low bits, and every other bit as it was.

pub fn set_format(w: u64, v: u64) -> u64
    ensures { info_of result ≡ with_format (info_of w) (low 3 v) }
{
    put::<2, 0>(w, v)
}

pub fn set_first(w: u64, v: u64) -> u64
    ensures { info_of result ≡ with_first (info_of w) (low 9 v) }
{
    put::<11, 3>(w, v)
}

pub fn set_hpa(w: u64, v: u64) -> u64
    ensures { info_of result ≡ with_hpa (info_of w) (low 40 v) }
{
    put::<51, 12>(w, v)
}

pub fn set_last(w: u64, v: u64) -> u64
    ensures { info_of result ≡ with_last (info_of w) (low 9 v) }
{
    put::<63, 55>(w, v)
}
