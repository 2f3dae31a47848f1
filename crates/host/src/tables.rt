// Calls that write no byte of the table: new epoch, reset and abort, which ask for its length alone, and the start token, which looks at its pages in place.
ghost use Rattle.std.specs.Prelude.{◌≡◌, true, length};
ghost use Rattle.refusals.specs.Refusals.{code_of};
ghost use Rattle.migration.specs.Token.{token_of};
ghost use Rattle.calls.specs.declared.Call.TheVariants.{OnSession, StartToken};
ghost use Rattle.host.specs.Host.{Lent, lent, Left, token_numbers, host_of};
ghost use Rattle.host.specs.Inside.{sound, TokenTold};

use crate::reads;
use migration::token::Obstacle;
use migration::{Alone, token};
use refusals::Refusal;
use session::When;
use wire::sessions;
use wire::sessions::SESSION_BYTES;
use wire::tables::InBytes;

// Put into each function that C calls, where `k` is known: one for all of them would ask it at each call.
#[inline(always)]
pub fn on_session(k: Alone, session: &mut [u8], table: &[u8]) -> Result<(), Refusal>
    ensures value { code_of result ≡ (host_of (OnSession k) (lent session.old table.now)).answer.code }
    ensures session_after { session.new ≡ (host_of (OnSession k) (lent session.old table.now)).session }
    ensures table_value { table.now ≡ (host_of (OnSession k) (lent session.old table.now)).table }
{
    let session = session.as_mut_array().ok_or(Refusal::Malformed)?;
    reads::allow_lent(session, table.len())?;
    session::allow_phase(sessions::phase_at(session), migration::alone_when(k))?;
    let change = migration::alone_verdict(
        k,
        sessions::epoch_at(session),
        sessions::is_busy(session),
    )?;
    sessions::put_change(session, change);
    Ok(())
}

// ---- the start token

// What the token is. Past 40.
fn token_at(session: &[u8; SESSION_BYTES], table: &[u8]) -> Result<(), Obstacle>
    ensures { sound session.now (length table.now) ≡ true → TokenTold session.now table.now (token_of result) }
{
    session::allow_phase(sessions::phase_at(session), When::Blackout)?;
    token::allow_token(
        sessions::is_busy(session),
        sessions::check_at(session).complete,
    )?;
    token::look::<InBytes>(table)
}

pub fn start_token(session: &mut [u8], table: &[u8]) -> Result<(), Obstacle>
    ensures value { token_numbers result ≡ (host_of StartToken (lent session.old table.now)).answer }
    ensures session_after { session.new ≡ (host_of StartToken (lent session.old table.now)).session }
    ensures table_value { table.now ≡ (host_of StartToken (lent session.old table.now)).table }
{
    let session = session.as_mut_array().ok_or(Refusal::Malformed)?;
    reads::allow_lent(session, table.len())?;
    token_at(session, table)?;
    sessions::put_change(session, token::granted());
    Ok(())
}
