// What a call changes in a session: one thing, or nothing. Whoever holds the session in another form, as the C functions do, makes the same change there.
ghost use Rattle.std.specs.Prelude.{◌≡◌, cond, eqb};
ghost use Rattle.session.specs.Session.{unchecked, changed_by};
ghost use Rattle.session.specs.declared.changes.Change.TheVariants.{Nothing};
ghost use Rattle.session.specs.Outcome.{verdict_of};

use crate::streams::Interruption;
use crate::{Check, Phase, Session, streams};
use page::Clock;
use refusals::Refusal;

#[derive(Clone, Copy)]
pub enum Change {
    // For the definition `verdict_for`: what is refused changes nothing.
    Nothing,
    ToPhase {
        phase: Phase,
    },
    ToEpoch {
        epoch: u64,
    },
    ToClock {
        clock: Clock,
    },
    ToCheck {
        check: Check,
    },
    // Where a migration begins, and where one that is given up ends: with no check and with streams at rest.
    Begin {
        phase: Phase,
        epoch: u64,
    },
    ToWork {
        stream: u64,
        work: Option<Interruption>,
    },
}

// A check that has not begun.
pub fn no_check() -> Check
    ensures { result ≡ unchecked }
{
    Check {
        place: 0,
        complete: false,
        failed: false,
    }
}

// The session with the change made.
pub fn changed(s: Session, c: Change) -> Session
    ensures { result ≡ changed_by c s }
{
    match c {
        Change::Nothing => s,
        Change::ToPhase { phase } => Session { phase, ..s },
        Change::ToEpoch { epoch } => Session { epoch, ..s },
        Change::ToClock { clock } => Session { clock, ..s },
        Change::ToCheck { check } => Session { check, ..s },
        Change::Begin { phase, epoch } => Session {
            phase,
            epoch,
            check: no_check(),
            streams: streams::at_rest(),
            ..s
        },
        Change::ToWork { stream, work } => streams::with_work(s, stream, work),
    }
}

// What a call comes to, in a code: with 0 what it changes, with any other nothing. For whoever holds the code of what stands before a call.
#[derive(Clone, Copy)]
pub struct Verdict {
    pub code: u64,
    pub change: Change,
}

// What came of a call, told the code of what stands before it, which is answered where it is not 0.
pub fn told(gate: u64, outcome: Result<Change, Refusal>) -> Verdict
    ensures code { result.code ≡ cond (eqb gate 0) (verdict_of outcome).code gate }
    ensures change { result.change ≡ cond (eqb gate 0) (verdict_of outcome).change Nothing }
{
    let change = Change::Nothing;
    if gate != 0 {
        return Verdict { code: gate, change };
    }
    match outcome {
        Ok(change) => Verdict { code: 0, change },
        Err(r) => Verdict {
            code: u64::from(r),
            change,
        },
    }
}
