// Export of a list: on a stream that remembers where it was interrupted, with its counts.

#![tactic(auto)]

ghost use Rattle.std.specs.Prelude.{◌≡◌, ◌+◌, ◌≤◌};
ghost use Rattle.refusals.specs.Refusals.{first_of, code_of};
ghost use Rattle.session.specs.Formed.{behind, last_entry};
ghost use Rattle.export.specs.Export.{resumable, export_asks, begun_by, mac_pages, end_of, ended_by, export_answer_of, export_out};

use lists::runs::Progress;
use lists::{Kind, runs};
use refusals::{Ending, Refusal, told};
use session::changes::Change;
use session::streams::Interruption;
use session::{Session, When, changes, streams};
use table::InWords;
use words::infos::Info;

// What an export answers that is not refused.
#[derive(Clone, Copy)]
pub struct ExportAnswer {
    pub ending: Ending,
    pub info: u64,
    pub errors: u64,
    pub buffers: u64,
    pub session: Session,
}

// The stream was interrupted where the info word goes on.
fn is_resumable(work: Option<Interruption>, x: Info) -> bool
    ensures { result ≡ resumable work x }
{
    work.is_some_and(|i| (x.first == i.next) & (x.last == i.last))
}

// The first of an export's own tests that holds; `work` is what the stream is doing.
pub fn allow_export(
    created: u64,
    work: Option<Interruption>,
    entries: usize,
    room: usize,
    stream: u64,
    resume: bool,
    x: Info,
) -> Result<(), Refusal>
    ensures { code_of result ≡ first_of (export_asks created work entries room stream resume x) }
{
    let no_resumption = resume & !is_resumable(work, x);
    let no_new_call = !resume & work.is_some();
    let not_from_0 = !resume & (x.first != 0);
    if !streams::is_usable(created, stream) {
        return Err(Refusal::OperandInvalid);
    }
    if room != entries {
        return Err(Refusal::OperandInvalid);
    }
    lists::allow_list(entries, x)?;
    if no_resumption {
        return Err(Refusal::InvalidResumption);
    }
    if no_new_call {
        return Err(Refusal::InvalidResumption); // the stream is interrupted
    }
    if not_from_0 {
        return Err(Refusal::OperandInvalid); // after 44
    }
    Ok(())
}

// The same told the code of its gate, for whoever holds that in place of a `Result`.
pub fn export_code(
    gate: u64,
    created: u64,
    work: Option<Interruption>,
    entries: usize,
    room: usize,
    stream: u64,
    resume: bool,
    x: Info,
) -> u64
    ensures { result ≡ behind gate (export_asks created work entries room stream resume x) }
{
    let outcome = allow_export(created, work, entries, room, stream, resume, x);
    told(gate, outcome)
}

// Where a call on the stream goes on.
pub fn begin(work: Option<Interruption>) -> Progress
    ensures { result ≡ begun_by work }
{
    match work {
        None => Progress {
            next: 0,
            errors: 0,
            filled: 0,
        },
        Some(i) => Progress {
            next: i.next,
            errors: i.errors, // of the whole operation, and not of its last call alone
            filled: i.filled,
        },
    }
}

// A list of more entries than this has a second page of MACs.
const ENTRIES_A_MAC_PAGE: u64 = 256;

fn mac_pages(last: u64) -> u64
    ensures { result ≡ mac_pages last }
{
    if ENTRIES_A_MAC_PAGE <= last { 2 } else { 1 }
}

// How a call ends: its numbers, and what its stream does then.
#[derive(Clone, Copy)]
pub struct Ended {
    pub ending: Ending,
    pub info: u64,
    pub errors: u64,
    pub buffers: u64,
    pub work: Option<Interruption>,
}

pub fn end(x: Info, at: Progress) -> Ended
    requires { (x.last ≤ last_entry) × (at.next ≤ x.last + 1) × (at.filled ≤ at.next) }
    ensures { end_of result ≡ ended_by x at }
{
    let last = x.last;
    let info = lists::info_back(x, at.next);
    if lists::is_over(x, at.next) {
        let macs = mac_pages(last);
        return Ended {
            ending: Ending::Done,
            info,
            errors: at.errors,
            buffers: 1 + macs + at.filled,
            work: None,
        };
    }
    Ended {
        ending: Ending::Interrupted,
        info,
        errors: 0, // told at the end
        buffers: 0,
        work: Some(Interruption {
            next: at.next,
            last,
            errors: at.errors,
            filled: at.filled,
        }),
    }
}

// A new call on a stream at rest, or one that goes on where the stream was interrupted; of any list that holds the entries which are left.
pub fn export(
    s: Session,
    table: &mut [u64],
    list: &mut [u64],
    buffer: &mut [u64],
    stream: u64,
    resume: bool,
    info: u64,
    budget: u64,
) -> Result<ExportAnswer, Refusal>
    ensures value { export_answer_of s result ≡ (export_out s table.old list.old buffer.old stream resume info budget).answer }
    ensures table_after { table.new ≡ (export_out s table.old list.old buffer.old stream resume info budget).table }
    ensures list_after { list.new ≡ (export_out s table.old list.old buffer.old stream resume info budget).list }
    ensures buffer_after { buffer.new ≡ (export_out s table.old list.old buffer.old stream resume info budget).buffer }
{
    session::gate(s, table.len(), When::Moving)?;
    let x = Info::from(info);
    let work = streams::work_of(s, stream);
    allow_export(
        s.fixed.created,
        work,
        list.len(),
        buffer.len(),
        stream,
        resume,
        x,
    )?;
    let g = entry::ground_of(s);
    let from = begin(work);
    let at = runs::run_entries::<InWords>(
        table,
        list,
        buffer,
        from,
        x.last,
        budget,
        Kind::Export,
        g,
    );
    let ended = end(x, at);
    let after = ended.work;
    let session = changes::changed(
        s,
        Change::ToWork {
            stream,
            work: after,
        },
    );
    Ok(ExportAnswer {
        ending: ended.ending,
        info: ended.info,
        errors: ended.errors,
        buffers: ended.buffers,
        session,
    })
}
