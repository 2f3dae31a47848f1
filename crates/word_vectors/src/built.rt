// Words of document 01, built from their fields: what goes into the marked table and what comes out, info words and records.
use records::Record;
use std::io::{self, Write};
use words::entries::{Entry, set_state};
use words::infos::Info;
use words::statuses::Failure;
use words::{hints, operations, states, statuses};

// An entry that asks for one page.
fn asking(gpa: u64, operation: u64) -> u64 {
    u64::from(Entry {
        gpa,
        operation,
        ..Entry::from(0)
    })
}

// An entry as an export gives it back.
fn answered(w: u64, operation: u64, pending: bool, status: u64) -> u64 {
    u64::from(Entry {
        pending,
        state: 0,
        l2_map: 0,
        operation,
        status,
        ..Entry::from(w)
    })
}

// As a call that did not do what it was asked gives it back.
fn failed(w: u64, failure: Failure) -> u64 {
    answered(w, operations::NOP, false, u64::from(failure))
}

fn done(w: u64, operation: u64, pending: bool) -> u64 {
    answered(w, operation, pending, statuses::SUCCESS)
}

fn print_marked(out: &mut impl Write) -> io::Result<()> {
    let w = asking(5, operations::MIGRATE);
    // A page number typed where a byte address belongs: 5 is LEVEL 1 with PENDING.
    let typed = u64::from(Entry {
        level: 1,
        pending: true,
        ..Entry::from(0)
    });
    let unmapped = asking(20480, operations::MIGRATE);
    let nop = asking(5, operations::NOP);
    let marked = [
        (w, done(w, operations::MIGRATE, false)),
        (w, failed(w, Failure::TlbTrackingNotDone)),
        (w, failed(w, Failure::PageDirty)),
        (w, done(w, operations::MIGRATE, true)),
        (w, done(w, operations::REMIGRATE, false)),
        (w, done(w, operations::CANCEL, false)),
        (w, failed(w, Failure::MigratedInCurrentEpoch)),
        (typed, failed(typed, Failure::GpaListEntryInvalid)),
        (unmapped, failed(unmapped, Failure::SeptWalkFailed)),
        (nop, failed(nop, Failure::Skipped)),
    ];
    for (i, (before, after)) in marked.iter().enumerate() {
        writeln!(out, "marked {} in {before:016x} out {after:016x}", i + 1)?;
    }
    Ok(())
}

// What a scan lists for a page that is in EXPORTED with Dirty.
fn scanned() -> u64 {
    set_state(asking(5, operations::MIGRATE), hints::EXPORTED_MODIFIED)
}

fn info(first: u64, last: u64) -> u64 {
    u64::from(Info {
        first,
        last,
        ..Info::from(0)
    })
}

fn record(state: u8, stamp: u64, migrated: u64) -> u64 {
    u64::from(Record {
        state,
        stamp,
        migrated,
        ..Record::from(0)
    })
}

pub(crate) fn print_all(out: &mut impl Write) -> io::Result<()> {
    print_marked(out)?;
    writeln!(out, "scanned out {:016x}", scanned())?;
    let words = [
        ("info of an empty list", info(511, 0)),
        ("info of one entry", info(0, 0)),
        ("info of 512 entries", info(0, 511)),
        (
            "record blocked at TLB epoch 2",
            record(states::BLOCKED, 2, 0),
        ),
        (
            "record with the largest stamp",
            record(states::MAPPED, 65535, 0),
        ),
        (
            "record with the largest epoch",
            record(states::EXPORTED, 0, 65535),
        ),
    ];
    for (name, w) in &words {
        writeln!(out, "{name} {w:016x}")?;
    }
    Ok(())
}
