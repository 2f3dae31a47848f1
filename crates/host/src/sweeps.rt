// Calls on every page: New, track, start and pause. The table's bytes are read, moved and cleared in place; a call that is refused writes none.
ghost use Rattle.std.specs.Prelude.{◌≡◌, true, length};
ghost use Rattle.refusals.specs.Refusals.{code_of};
ghost use Rattle.session.specs.Outcome.{verdict_of};
ghost use Rattle.calls.specs.declared.Call.TheVariants.{New, OnAll};
ghost use Rattle.host.specs.Host.{Lent, lent, Left, host_of};
ghost use Rattle.host.specs.Inside.{sound, SweepTold};

use crate::reads;
use page::sweeps::Sweep;
use refusals::Refusal;
use session::changes::Change;
use wire::sessions::SESSION_BYTES;
use wire::tables::InBytes;
use wire::{sessions, tables};

// What the call comes to. Past 40.
fn verdict_at(k: Sweep, session: &[u8; SESSION_BYTES], table: &[u8]) -> Result<Change, Refusal>
    ensures { sound session.now (length table.now) ≡ true → SweepTold k session.now table.now (verdict_of result) }
{
    session::allow_phase(sessions::phase_at(session), migration::sweep_when(k))?;
    let stops = migration::is_stopped::<InBytes>(table, migration::stops_at(k));
    migration::sweep_verdict(
        k,
        sessions::clock_at(session),
        sessions::is_busy(session),
        stops,
    )
}

pub fn on_all(k: Sweep, session: &mut [u8], table: &mut [u8]) -> Result<(), Refusal>
    ensures value { code_of result ≡ (host_of (OnAll k) (lent session.old table.old)).answer.code }
    ensures session_after { session.new ≡ (host_of (OnAll k) (lent session.old table.old)).session }
    ensures table_after { table.new ≡ (host_of (OnAll k) (lent session.old table.old)).table }
{
    let session = session.as_mut_array().ok_or(Refusal::Malformed)?;
    reads::allow_lent(session, table.len())?;
    let change = verdict_at(k, session, table)?;
    tables::sweep_all(table, k);
    sessions::put_change(session, change);
    Ok(())
}

pub fn new(session: &mut [u8], table: &mut [u8], created: u64) -> Result<(), Refusal>
    ensures value { code_of result ≡ (host_of (New created) (lent session.old table.old)).answer.code }
    ensures session_after { session.new ≡ (host_of (New created) (lent session.old table.old)).session }
    ensures table_after { table.new ≡ (host_of (New created) (lent session.old table.old)).table }
{
    let session = session.as_mut_array().ok_or(Refusal::Malformed)?;
    if !reads::is_table(table.len()) {
        return Err(Refusal::Malformed);
    }
    memory::allow_new(table.len() / 8, created)?;
    let made = session::new_session(table.len() / 16, created);
    table.fill(0);
    sessions::put_session(session, made);
    Ok(())
}
