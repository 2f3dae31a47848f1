// Calls on one page: its sixteen bytes and the session's are read, and its sixteen written.
ghost use Rattle.std.specs.Prelude.{◌≡◌};
ghost use Rattle.refusals.specs.Refusals.{code_of};
ghost use Rattle.calls.specs.declared.Call.TheVariants.{OnPage};
ghost use Rattle.host.specs.Host.{lent, Left, host_of};

use crate::reads;
use page::moves::Move;
use refusals::Refusal;
use wire::{sessions, tables};

pub fn on_page(m: Move, session: &[u8], table: &mut [u8], page: u64) -> Result<(), Refusal>
    ensures value { code_of result ≡ (host_of (OnPage page m) (lent session.now table.old)).answer.code }
    ensures session_value { session.now ≡ (host_of (OnPage page m) (lent session.now table.old)).session }
    ensures table_after { table.new ≡ (host_of (OnPage page m) (lent session.now table.old)).table }
{
    let session = session.as_array().ok_or(Refusal::Malformed)?;
    reads::allow_lent(session, table.len())?;
    let at = page as usize;
    let phase = sessions::phase_at(session);
    let pages = sessions::pages_at(session);
    let clock = sessions::clock_at(session);
    let before = tables::load(&table[..], at);
    let after = memory::on_words(m, phase, pages, clock, at, before)?;
    tables::store(table, at, after);
    Ok(())
}
