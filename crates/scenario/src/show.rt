// What the program prints of a call.
use calls::Returned;
use session::Session;
use session::streams::Interruption;
use std::io::{self, Write};

// What a call answered.
fn answer(out: &mut impl Write, r: &Returned) -> io::Result<()> {
    write!(
        out,
        "code {} page {} next {} first {} last {} info {:016x} errors {} buffers {}",
        r.code, r.page, r.next, r.first, r.last, r.info, r.errors, r.buffers
    )
}

// What a stream is doing.
fn stream(out: &mut impl Write, work: Option<Interruption>) -> io::Result<()> {
    match work {
        None => write!(out, " -"),
        Some(i) => write!(out, " {}/{}/{}/{}", i.next, i.last, i.errors, i.filled),
    }
}

// Every field of the session.
fn session(out: &mut impl Write, s: &Session) -> io::Result<()> {
    write!(
        out,
        " phase {} pages {} tlb {} epoch {} created {} place {} complete {} failed {} streams",
        u64::from(s.phase),
        s.fixed.pages,
        s.clock.tlb,
        s.epoch,
        s.fixed.created,
        s.check.place,
        u64::from(s.check.complete),
        u64::from(s.check.failed)
    )?;
    s.streams.iter().try_for_each(|s| stream(out, s.work))
}

// What a call returned, with the session that it gave back.
pub(crate) fn returned(out: &mut impl Write, r: &Returned) -> io::Result<()> {
    answer(out, r)?;
    session(out, &r.session)
}
