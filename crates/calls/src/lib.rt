// Every call of the bench as one data type, by shape, so that what holds of all calls, or of all calls of a shape, is said once.

#![tactic(auto)]

ghost use Rattle.std.specs.Prelude.{◌≡◌, Err};
ghost use Rattle.session.specs.Outcome.{answer_of};
ghost use Rattle.migration.specs.Token.{token_answer_of};
ghost use Rattle.scan.specs.Scan.{scan_answer_of};
ghost use Rattle.export.specs.Export.{export_answer_of};
ghost use Rattle.restore.specs.Restore.{list_answer_of};
ghost use Rattle.calls.specs.Calls.{without_numbers, token_numbers, scan_numbers, export_numbers, list_numbers, effect_of};

use export::ExportAnswer;
use migration::token::Obstacle;
use migration::{Alone, token};
use page::moves::Move;
use page::sweeps::Sweep;
use refusals::{Refusal, code_of};
use restore::ListAnswer;
use scan::ScanAnswer;
use session::Session;

#[derive(Clone, Copy)]
pub enum Call {
    New {
        created: u64,
    },
    // Write, add, accept, block, unblock, remove.
    OnPage {
        page: usize,
        made: Move,
    },
    // Track, start, pause.
    OnAll {
        sweep: Sweep,
    },
    // New epoch, reset, abort.
    OnSession {
        alone: Alone,
    },
    StartToken,
    Dscan {
        first: usize,
        count: usize,
        budget: usize,
    },
    Dcheck {
        budget: usize,
    },
    Export {
        stream: u64,
        resume: bool,
        info: u64,
        budget: u64,
    },
    Restore {
        info: u64,
        budget: u64,
    },
}

// A call's answer in numbers, codes too: `effect_of` and the theorems over it are about these, and C gets them. Those that a call does not give are 0, and so are
// all but the code of a refusal and the page of 53 and 54.
#[derive(Clone, Copy)]
pub struct Returned {
    pub code: u64,
    // The page in the way of a start token.
    pub page: usize,
    // A scan's: the next page, and the first and the last entry of its list.
    pub next: usize,
    pub first: u64,
    pub last: u64,
    // An export's, and RESTORE's.
    pub info: u64,
    // An export's.
    pub errors: u64,
    pub buffers: u64,
    pub session: Session,
}

// A code and a session, and no other number: what `Returned` is for.
fn code_alone(code: u64, session: Session) -> Returned
    ensures { result ≡ without_numbers (record { code = code; session = session }) }
{
    Returned {
        code,
        page: 0, // for 53 and 54 alone
        next: 0,
        first: 0,
        last: 0,
        info: 0,
        errors: 0,
        buffers: 0,
        session,
    }
}

fn refused(refusal: Refusal, s: Session) -> Returned
    ensures { result ≡ without_numbers (answer_of s (Err refusal)) }
{
    code_alone(u64::from(refusal), s)
}

// `s` is the session that came, which a refusal brings back.
fn without_numbers(s: Session, outcome: Result<Session, Refusal>) -> Returned
    ensures { result ≡ without_numbers (answer_of s outcome) }
{
    match outcome {
        Ok(session) => code_alone(0, session),
        Err(refusal) => refused(refusal, s),
    }
}

fn token_numbers(s: Session, outcome: Result<Session, Obstacle>) -> Returned
    ensures { result ≡ token_numbers (token_answer_of s outcome) }
{
    match outcome {
        Ok(session) => code_alone(0, session),
        Err(Obstacle::Refused(refusal)) => refused(refusal, s),
        Err(Obstacle::InTheWay { refusal, page }) => Returned {
            page,
            ..refused(refusal, s)
        },
    }
}

fn scan_numbers(s: Session, outcome: Result<ScanAnswer, Refusal>) -> Returned
    ensures { result ≡ scan_numbers (scan_answer_of s outcome) }
{
    match outcome {
        Ok(a) => Returned {
            next: a.next,
            first: a.first,
            last: a.last,
            ..code_alone(u64::from(a.ending), a.session)
        },
        Err(refusal) => refused(refusal, s),
    }
}

fn export_numbers(s: Session, outcome: Result<ExportAnswer, Refusal>) -> Returned
    ensures { result ≡ export_numbers (export_answer_of s outcome) }
{
    match outcome {
        Ok(a) => Returned {
            info: a.info,
            errors: a.errors,
            buffers: a.buffers,
            ..code_alone(u64::from(a.ending), a.session)
        },
        Err(refusal) => refused(refusal, s),
    }
}

fn list_numbers(s: Session, outcome: Result<ListAnswer, Refusal>) -> Returned
    ensures { result ≡ list_numbers (list_answer_of s outcome) }
{
    match outcome {
        Ok(a) => Returned {
            info: a.info,
            ..code_alone(u64::from(a.ending), a.session)
        },
        Err(refusal) => refused(refusal, s),
    }
}

// The calls that take no list leave the lent list and buffer alone.
pub fn perform(
    call: Call,
    s: Session,
    table: &mut [u64],
    list: &mut [u64],
    buffer: &mut [u64],
) -> Returned
    ensures value { result ≡ (effect_of call s table.old list.old buffer.old).returned }
    ensures table_after { table.new ≡ (effect_of call s table.old list.old buffer.old).table }
    ensures list_after { list.new ≡ (effect_of call s table.old list.old buffer.old).list }
    ensures buffer_after { buffer.new ≡ (effect_of call s table.old list.old buffer.old).buffer }
{
    match call {
        Call::New { created } => without_numbers(s, memory::new(s, table, created)),
        Call::OnPage { page, made } => code_alone(
            code_of(memory::on_page(made, s, table, page)),
            s,
        ),
        Call::OnAll { sweep } => without_numbers(s, migration::on_all(sweep, s, table)),
        Call::OnSession { alone } => without_numbers(
            s,
            migration::on_session(alone, s, table.len()),
        ),
        Call::StartToken => token_numbers(s, token::start_token(s, &table[..])),
        Call::Dscan {
            first,
            count,
            budget,
        } => scan_numbers(s, scan::dscan(s, table, list, first, count, budget)),
        Call::Dcheck { budget } => scan_numbers(s, scan::dcheck(s, table, list, budget)),
        Call::Export {
            stream,
            resume,
            info,
            budget,
        } => export_numbers(
            s,
            export::export(s, table, list, buffer, stream, resume, info, budget),
        ),
        Call::Restore { info, budget } => {
            list_numbers(s, restore::restore(s, table, list, info, budget))
        }
    }
}
