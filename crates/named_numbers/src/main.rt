// Prints the named numbers of `words`, each list in its order. That the code and specs/ give each name the same number is proved on the way.

#![tactic(auto)]

ghost use Rattle.std.specs.Prelude.{◌≡◌};
ghost use Rattle.named_numbers.specs.Named.{code_numbers, state_numbers, status_numbers, operation_numbers, hint_numbers, restore_numbers};

use refusals::{Ending, Refusal};
use std::io::{self, BufWriter, Write};
use words::statuses::Failure;
use words::{hints, operations, states, statuses};

fn code_numbers() -> [u64; 21]
    ensures { result ≡ code_numbers }
{
    [
        Ending::Done as u64,
        Ending::Interrupted as u64,
        Ending::ListFull as u64,
        Ending::CheckComplete as u64,
        Refusal::Malformed as u64,
        Refusal::OpStateIncorrect as u64,
        Refusal::OperandInvalid as u64,
        Refusal::OperandBusy as u64,
        Refusal::InvalidResumption as u64,
        Refusal::EptEntryStateIncorrect as u64,
        Refusal::GpaRangeNotBlocked as u64,
        Refusal::TlbTrackingNotDone as u64,
        Refusal::BlockedMemoryExists as u64,
        Refusal::BlockingDisallowed as u64,
        Refusal::MemScanResetRequired as u64,
        Ending::MemScanFailedBlockedRange as u64,
        Refusal::MemScanDcheckNotDone as u64,
        Refusal::ExportedDirtyPagesRemain as u64,
        Refusal::UnexportedMemoryRemains as u64,
        Refusal::MigrationEpochOverflow as u64,
        Refusal::TlbEpochAtLimit as u64,
    ]
}

fn state_numbers() -> [u64; 35]
    ensures { result ≡ state_numbers }
{
    [
        states::FREE as u64,
        states::BLOCKED as u64,
        states::PENDING as u64,
        states::PENDING_BLOCKED as u64,
        states::MAPPED as u64,
        states::EXPORTED as u64,
        states::EXPORTED_MODIFIED as u64,
        states::EXPORTED_BLOCKED as u64,
        states::EXPORTED_REMOVED as u64,
        states::PENDING_EXPORTED as u64,
        states::PENDING_EXPORTED_MODIFIED as u64,
        states::PENDING_EXPORTED_BLOCKED as u64,
        states::REMOVED as u64,
        states::REMOVE_IN_PROGRESS as u64,
        states::BLOCKEDW as u64,
        states::EXPORTED_BLOCKEDW as u64,
        states::EXPORTED_DIRTY as u64,
        states::EXPORTED_DIRTY_BLOCKEDW as u64,
        states::PENDING_BLOCKEDW as u64,
        states::PENDING_EXPORTED_BLOCKEDW as u64,
        states::PENDING_EXPORTED_DIRTY as u64,
        states::PENDING_EXPORTED_DIRTY_BLOCKEDW as u64,
        states::EXPORTED_REMOVE_IN_PROGRESS as u64,
        states::MMIO_MAPPED as u64,
        states::MMIO_BLOCKED as u64,
        states::MMIO_PENDING as u64,
        states::L2_FREE as u64,
        states::L2_BLOCKED as u64,
        states::L2_MAPPED as u64,
        states::L2_MMIO_MAPPED as u64,
        states::L2_MMIO_BLOCKED as u64,
        states::NL_BLOCKED as u64,
        states::NL_MAPPED as u64,
        states::L2_NL_BLOCKED as u64,
        states::L2_NL_MAPPED as u64,
    ]
}

fn status_numbers() -> [u64; 8]
    ensures { result ≡ status_numbers }
{
    [
        statuses::SUCCESS,
        Failure::Skipped as u64,
        Failure::SeptWalkFailed as u64,
        Failure::SeptEntryStateIncorrect as u64,
        Failure::TlbTrackingNotDone as u64,
        Failure::MigratedInCurrentEpoch as u64,
        Failure::GpaListEntryInvalid as u64,
        Failure::PageDirty as u64,
    ]
}

fn operation_numbers() -> [u64; 4]
    ensures { result ≡ operation_numbers }
{
    [
        operations::NOP,
        operations::MIGRATE,
        operations::CANCEL,
        operations::REMIGRATE,
    ]
}

fn hint_numbers() -> [u64; 4]
    ensures { result ≡ hint_numbers }
{
    [
        hints::NOT_EXPORTED,
        hints::EXPORTED_MODIFIED,
        hints::EXPORTED_BLOCKED,
        hints::EXPORTED_REMOVED,
    ]
}

// Of a list for RESTORE.
fn restore_numbers() -> [u64; 2]
    ensures { result ≡ restore_numbers }
{
    [operations::NOP, operations::RESTORE]
}

fn list(out: &mut impl Write, name: &str, ns: &[u64]) -> io::Result<()> {
    write!(out, "{name}")?;
    for n in ns {
        write!(out, " {n}")?;
    }
    writeln!(out)
}

fn main(rt: HostRuntime) -> io::Result<()> {
    let mut out = BufWriter::new(rt.alloc(), io::writer(&rt))?;
    list(&mut out, "codes", &code_numbers())?;
    list(&mut out, "states", &state_numbers())?;
    list(&mut out, "statuses", &status_numbers())?;
    list(&mut out, "operations", &operation_numbers())?;
    list(&mut out, "hints", &hint_numbers())?;
    list(&mut out, "restores", &restore_numbers())?;
    out.flush()
}
