// Which code a call answers: its tests have an order, and the first that holds gives its code, the error of a `Result`; a call that passes them all ends in one
// of five ways. The numbers are the house's. The names are those of 000, but for 0 to 3, 40 and 56, which are named after what document 01 says of them.

#![tactic(auto)]

ghost use Rattle.std.specs.Prelude.{◌≡◌, cond, eqb};
ghost use Rattle.refusals.specs.Refusals.{number_of, ending_number, code_of};

// Why a call is refused.
#[derive(Clone, Copy, Debug, PartialEq, Eq)]
pub enum Refusal {
    Malformed = 40,
    OpStateIncorrect = 41,
    OperandInvalid = 42,
    OperandBusy = 43,
    InvalidResumption = 44,
    EptEntryStateIncorrect = 45,
    GpaRangeNotBlocked = 46,
    TlbTrackingNotDone = 47,
    BlockedMemoryExists = 48,
    BlockingDisallowed = 49,
    MemScanResetRequired = 50,
    MemScanDcheckNotDone = 52,
    ExportedDirtyPagesRemain = 53,
    UnexportedMemoryRemains = 54,
    MigrationEpochOverflow = 55,
    TlbEpochAtLimit = 56,
}

impl From<Refusal> for u64 {
    ghost from_gives = { λ r n. n ≡ number_of r };

    fn from(r: Refusal) -> u64 {
        r as u64
    }
}

// How a call ends that is not refused: 1 to 3 are a scan's and, 1, an export's and a RESTORE's; 51 is that of a check which a blocked page ends.
#[derive(Clone, Copy, Debug, PartialEq, Eq)]
pub enum Ending {
    Done = 0,
    Interrupted = 1,
    ListFull = 2,
    CheckComplete = 3,
    MemScanFailedBlockedRange = 51,
}

impl From<Ending> for u64 {
    ghost from_gives = { λ e n. n ≡ ending_number e };

    fn from(e: Ending) -> u64 {
        e as u64
    }
}

// The code of what came of a call's tests: 0 where none holds. A number, for C.
pub fn code_of(outcome: Result<(), Refusal>) -> u64
    ensures { result ≡ code_of outcome }
{
    match outcome {
        Ok(()) => 0,
        Err(r) => u64::from(r),
    }
}

// The same told the code of what stands before the tests, which is answered where it is not 0.
pub fn told(gate: u64, outcome: Result<(), Refusal>) -> u64
    ensures { result ≡ cond (eqb gate 0) (code_of outcome) gate }
{
    if gate != 0 {
        return gate;
    }
    code_of(outcome)
}
