// RESTORE of a list: pages that a migration left go back to the states outside one.

#![tactic(auto)]

ghost use Rattle.std.specs.Prelude.{◌≡◌};
ghost use Rattle.refusals.specs.Refusals.{first_of, code_of};
ghost use Rattle.session.specs.Formed.{behind};
ghost use Rattle.restore.specs.Restore.{restore_asks, begun_at, end_of, ended_at, list_answer_of, restore_out};

use lists::runs::Progress;
use lists::{Kind, runs};
use refusals::{Ending, Refusal, told};
use session::{Session, When};
use table::InWords;
use words::infos::Info;

// What a RESTORE answers that is not refused.
#[derive(Clone, Copy)]
pub struct ListAnswer {
    pub ending: Ending,
    pub info: u64,
    pub session: Session,
}

// The first of a RESTORE's own tests that holds.
pub fn allow_restore(entries: usize, x: Info) -> Result<(), Refusal>
    ensures { code_of result ≡ first_of (restore_asks entries x) }
{
    lists::allow_list(entries, x)?;
    if x.last < x.first {
        return Err(Refusal::OperandInvalid);
    }
    Ok(())
}

// The same told the code of its gate, for whoever holds that in place of a `Result`.
pub fn restore_code(gate: u64, entries: usize, x: Info) -> u64
    ensures { result ≡ behind gate (restore_asks entries x) }
{
    told(gate, allow_restore(entries, x))
}

// Every call begins at FIRST.
pub fn begin(x: Info) -> Progress
    ensures { result ≡ begun_at x }
{
    Progress {
        next: x.first,
        errors: 0,
        filled: 0,
    }
}

// How a call ends.
#[derive(Clone, Copy)]
pub struct Ended {
    pub ending: Ending,
    pub info: u64,
}

pub fn end(x: Info, next: u64) -> Ended
    ensures { end_of result ≡ ended_at x next }
{
    let info = lists::info_back(x, next);
    let ending = if lists::is_over(x, next) {
        Ending::Done
    } else {
        Ending::Interrupted
    };
    Ended { ending, info }
}

// The entries from FIRST on, while the budget lasts.
pub fn restore(
    s: Session,
    table: &mut [u64],
    list: &mut [u64],
    info: u64,
    budget: u64,
) -> Result<ListAnswer, Refusal>
    ensures value { list_answer_of s result ≡ (restore_out s table.old list.old info budget).answer }
    ensures table_after { table.new ≡ (restore_out s table.old list.old info budget).table }
    ensures list_after { list.new ≡ (restore_out s table.old list.old info budget).list }
{
    session::gate(s, table.len(), When::Idle)?;
    let x = Info::from(info);
    allow_restore(list.len(), x)?;
    let g = entry::ground_of(s);
    let from = begin(x);
    let mut none = [0u64; 0];
    let buffer: &mut [u64] = &mut none;
    let at = runs::run_entries::<InWords>(
        table,
        list,
        buffer,
        from,
        x.last,
        budget,
        Kind::Restore,
        g,
    );
    let ended = end(x, at.next);
    Ok(ListAnswer {
        ending: ended.ending,
        info: ended.info,
        session: s,
    })
}
