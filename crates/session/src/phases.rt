// The C side's numbers of the phases.
ghost use Rattle.std.specs.Prelude.{◌≡◌};
ghost use Rattle.session.specs.Session.{phase_number, NumbersPhase};

use crate::Phase;

// A number that is no phase's.
#[derive(Clone, Copy, Debug, PartialEq, Eq)]
pub struct UnknownPhase(pub u64);

impl TryFrom<u64> for Phase {
    type Error = UnknownPhase;

    ghost try_from_gives = { NumbersPhase };

    fn try_from(number: u64) -> Result<Self, UnknownPhase> {
        match number {
            0 => Ok(Phase::Idle),
            1 => Ok(Phase::Live),
            2 => Ok(Phase::Blackout),
            3 => Ok(Phase::Done),
            _ => Err(UnknownPhase(number)),
        }
    }
}

impl From<Phase> for u64 {
    ghost from_gives = { λ phase number. number ≡ phase_number phase };

    fn from(phase: Phase) -> u64 {
        match phase {
            Phase::Idle => 0,
            Phase::Live => 1,
            Phase::Blackout => 2,
            Phase::Done => 3,
        }
    }
}
