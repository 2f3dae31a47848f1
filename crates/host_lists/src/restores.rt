// RESTORE: each entry is taken where it lies, with the sixteen bytes of its page. There is no buffer, and of the session no byte is written.
ghost use Rattle.std.specs.Prelude.{◌≡◌, true, length};
ghost use Rattle.calls.specs.declared.Call.TheVariants.{Restore};
ghost use Rattle.host.specs.Host.{Lent, lent_list, Left, host_of};
ghost use Rattle.host.specs.Inside.{sound};
ghost use Rattle.host_lists.specs.Inside.{restore_numbers};

use host::reads;
use in_place::runs;
use lists::Kind;
use refusals::Refusal;
use restore::Ended;
use session::When;
use wire::sessions;
use wire::sessions::SESSION_BYTES;
use words::infos::Info;

// Past 40.
fn restore_sound(
    session: &[u8; SESSION_BYTES],
    table: &mut [u8],
    list: &mut [u8],
    info: u64,
    budget: u64,
) -> Result<Ended, Refusal>
    requires { sound session.now (length table.old) ≡ true }
    ensures value { restore_numbers result ≡ (host_of (Restore info budget) (lent_list session.now table.old list.old)).answer }
    ensures session_value { session.now ≡ (host_of (Restore info budget)
        (lent_list session.now table.old list.old)).session }
    ensures table_after { table.new ≡ (host_of (Restore info budget)
        (lent_list session.now table.old list.old)).table }
    ensures list_after { list.new ≡ (host_of (Restore info budget)
        (lent_list session.now table.old list.old)).list }
{
    let phase = sessions::phase_at(session);
    crate::gate(phase, When::Idle, reads::is_list(list.len()))?;
    let x = Info::from(info);
    restore::allow_restore(list.len() / 8, x)?;
    let g = crate::ground_at(session);
    let from = restore::begin(x);
    let mut none = [0u8; 0];
    let buffer: &mut [u8] = &mut none;
    let at = runs::run_entries(table, list, buffer, from, x.last, budget, Kind::Restore, g);
    Ok(restore::end(x, at.next))
}

pub fn restore(
    session: &[u8],
    table: &mut [u8],
    list: &mut [u8],
    info: u64,
    budget: u64,
) -> Result<Ended, Refusal>
    ensures value { restore_numbers result ≡ (host_of (Restore info budget) (lent_list session.now table.old list.old)).answer }
    ensures session_value { session.now ≡ (host_of (Restore info budget)
        (lent_list session.now table.old list.old)).session }
    ensures table_after { table.new ≡ (host_of (Restore info budget)
        (lent_list session.now table.old list.old)).table }
    ensures list_after { list.new ≡ (host_of (Restore info budget)
        (lent_list session.now table.old list.old)).list }
{
    let session = session.as_array().ok_or(Refusal::Malformed)?;
    reads::allow_lent(session, table.len())?;
    restore_sound(session, table, list, info, budget)
}
