// A word taken apart as each of the three kinds, joined again, and with each field taken from another word.
ghost use Rattle.std.specs.Prelude.{◌≡◌};

use crate::print::{Numbers, Words};
use records::Record;
use std::io::{self, Write};
use words::classes::class_of;
use words::entries::Entry;
use words::infos::Info;
use words::{entries, infos};

// Taken apart and joined again, a word is as it was.
fn joined_entry(w: u64) -> u64
    ensures { result ≡ w }
{
    u64::from(Entry::from(w))
}

fn joined_info(w: u64) -> u64
    ensures { result ≡ w }
{
    u64::from(Info::from(w))
}

fn joined_record(w: u64) -> u64
    ensures { result ≡ w }
{
    u64::from(Record::from(w))
}

fn entry(out: &mut impl Write, w: u64) -> io::Result<()> {
    let e = Entry::from(w);
    let fields = [
        ("level", e.level),
        ("pending", u64::from(e.pending)),
        ("state", e.state),
        ("reserved5", e.reserved5),
        ("l2_map", e.l2_map),
        ("mig_type", e.mig_type),
        ("gpa", e.gpa),
        ("operation", e.operation),
        ("reserved54", e.reserved54),
        ("status", e.status),
        ("reserved61", e.reserved61),
    ];
    writeln!(
        out,
        "  entry{} joined {:016x}",
        Numbers(&fields),
        joined_entry(w)
    )
}

fn info(out: &mut impl Write, w: u64) -> io::Result<()> {
    let x = Info::from(w);
    let fields = [
        ("format", x.format),
        ("first", x.first),
        ("hpa", x.hpa),
        ("zero52", x.zero52),
        ("last", x.last),
    ];
    writeln!(
        out,
        "  info{} joined {:016x}",
        Numbers(&fields),
        joined_info(w)
    )
}

fn record(out: &mut impl Write, w: u64) -> io::Result<()> {
    let p = Record::from(w);
    let class = class_of(p.state);
    let fields = [
        ("dirty", u64::from(p.dirty)),
        ("cached", u64::from(p.cached)),
        ("spare10", p.spare10),
        ("stamp", p.stamp),
        ("epoch", p.migrated),
        ("spare48", p.spare48),
        ("plain", u64::from(records::is_plain(w))),
    ];
    writeln!(
        out,
        "  record state {} class {class}{} joined {:016x}",
        p.state,
        Numbers(&fields),
        joined_record(w)
    )
}

pub(crate) fn apart(out: &mut impl Write, w: u64) -> io::Result<()> {
    writeln!(out, "taken apart: word {w:016x}")?;
    entry(out, w)?;
    info(out, w)?;
    record(out, w)
}

// The word w with each of its fields in turn taken from v.
fn entry_from(out: &mut impl Write, w: u64, v: u64) -> io::Result<()> {
    let e = Entry::from(v);
    let words = [
        ("level", entries::set_level(w, e.level)),
        ("pending", entries::set_pending(w, e.pending)),
        ("state", entries::set_state(w, e.state)),
        ("l2_map", entries::set_l2_map(w, e.l2_map)),
        ("mig_type", entries::set_mig_type(w, e.mig_type)),
        ("gpa", entries::set_gpa(w, e.gpa)),
        ("operation", entries::set_operation(w, e.operation)),
        ("status", entries::set_status(w, e.status)),
    ];
    writeln!(out, "  entry with{}", Words(&words))
}

fn info_from(out: &mut impl Write, w: u64, v: u64) -> io::Result<()> {
    let x = Info::from(v);
    let words = [
        ("format", infos::set_format(w, x.format)),
        ("first", infos::set_first(w, x.first)),
        ("hpa", infos::set_hpa(w, x.hpa)),
        ("last", infos::set_last(w, x.last)),
    ];
    writeln!(out, "  info with{}", Words(&words))
}

fn record_from(out: &mut impl Write, w: u64, v: u64) -> io::Result<()> {
    let p = Record::from(v);
    let words = [
        ("state", records::set_state(w, p.state)),
        ("dirty", records::set_dirty(w, p.dirty)),
        ("cached", records::set_cached(w, p.cached)),
        ("stamp", records::set_stamp(w, p.stamp)),
        ("epoch", records::set_migrated(w, p.migrated)),
    ];
    writeln!(out, "  record with{}", Words(&words))
}

pub(crate) fn each_from(out: &mut impl Write, w: u64, v: u64) -> io::Result<()> {
    entry_from(out, w, v)?;
    info_from(out, w, v)?;
    record_from(out, w, v)
}
