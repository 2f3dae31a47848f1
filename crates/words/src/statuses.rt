// The values of an entry's STATUS that the bench gives (000, table 1.21).
ghost use Rattle.std.specs.Prelude.{◌≡◌};
ghost use Rattle.words.specs.Statuses.{failure_number};

// A number, as `Taken` has it, which `failed` and the theorems on entries are about.
pub const SUCCESS: u64 = 0;

// Why an entry is not taken.
#[derive(Clone, Copy, Debug, PartialEq, Eq)]
pub enum Failure {
    Skipped = 1,
    SeptWalkFailed = 2,
    SeptEntryStateIncorrect = 4,
    TlbTrackingNotDone = 5,
    MigratedInCurrentEpoch = 7,
    GpaListEntryInvalid = 15,
    PageDirty = 17,
}

impl From<Failure> for u64 {
    ghost from_gives = { λ f n. n ≡ failure_number f };

    fn from(f: Failure) -> u64 {
        f as u64
    }
}
