// DSCAN and DCHECK: the pages that are visited are read, those that are listed written, and of the session the check.
ghost use Rattle.std.specs.Prelude.{◌≡◌, true, length};
ghost use Rattle.calls.specs.declared.Call.TheVariants.{Dscan, Dcheck};
ghost use Rattle.host.specs.Host.{Lent, lent_list, Left, host_of};
ghost use Rattle.host.specs.Inside.{sound};
ghost use Rattle.host_lists.specs.Inside.{scan_numbers};

use host::reads;
use in_place::scans;
use refusals::Refusal;
use scan::{Scan, Scanned};
use session::When;
use session::changes::Change;
use wire::sessions;
use wire::sessions::SESSION_BYTES;

// Past 40. The parameters are C's, here and in `dscan`.
fn dscan_sound(
    session: &[u8; SESSION_BYTES],
    table: &mut [u8],
    list: &mut [u8],
    first: usize,
    count: usize,
    budget: usize,
) -> Result<Scanned, Refusal>
    requires { sound session.now (length table.old) ≡ true }
    ensures value { scan_numbers result ≡ (host_of (Dscan first count budget) (lent_list session.now table.old list.old)).answer }
    ensures session_value { session.now ≡ (host_of (Dscan first count budget)
        (lent_list session.now table.old list.old)).session }
    ensures table_after { table.new ≡ (host_of (Dscan first count budget)
        (lent_list session.now table.old list.old)).table }
    ensures list_after { list.new ≡ (host_of (Dscan first count budget)
        (lent_list session.now table.old list.old)).list }
{
    let phase = sessions::phase_at(session);
    crate::gate(phase, When::Live, reads::is_list(list.len()))?;
    scan::allow_dscan(sessions::pages_at(session), list.len() / 8, first, count)?;
    let clock = sessions::clock_at(session);
    Ok(scans::scan_range(
        table,
        list,
        count,
        Scan {
            first,
            budget,
            clock,
            checking: false,
        },
    ))
}

pub fn dscan(
    session: &[u8],
    table: &mut [u8],
    list: &mut [u8],
    first: usize,
    count: usize,
    budget: usize,
) -> Result<Scanned, Refusal>
    ensures value { scan_numbers result ≡ (host_of (Dscan first count budget) (lent_list session.now table.old list.old)).answer }
    ensures session_value { session.now ≡ (host_of (Dscan first count budget)
        (lent_list session.now table.old list.old)).session }
    ensures table_after { table.new ≡ (host_of (Dscan first count budget)
        (lent_list session.now table.old list.old)).table }
    ensures list_after { list.new ≡ (host_of (Dscan first count budget)
        (lent_list session.now table.old list.old)).list }
{
    let session = session.as_array().ok_or(Refusal::Malformed)?;
    reads::allow_lent(session, table.len())?;
    dscan_sound(session, table, list, first, count, budget)
}

// Past 40.
fn dcheck_sound(
    session: &mut [u8; SESSION_BYTES],
    table: &mut [u8],
    list: &mut [u8],
    budget: usize,
) -> Result<Scanned, Refusal>
    requires { sound session.old (length table.old) ≡ true }
    ensures value { scan_numbers result ≡ (host_of (Dcheck budget) (lent_list session.old table.old list.old)).answer }
    ensures session_after { session.new ≡ (host_of (Dcheck budget) (lent_list session.old table.old list.old)).session }
    ensures table_after { table.new ≡ (host_of (Dcheck budget) (lent_list session.old table.old list.old)).table }
    ensures list_after { list.new ≡ (host_of (Dcheck budget) (lent_list session.old table.old list.old)).list }
{
    let phase = sessions::phase_at(session);
    crate::gate(phase, When::Blackout, reads::is_list(list.len()))?;
    let check = sessions::check_at(session);
    scan::allow_dcheck(check, list.len() / 8)?;
    let clock = sessions::clock_at(session);
    let place = check.place;
    let got = scans::scan_range(
        table,
        list,
        sessions::pages_at(session) - place,
        Scan {
            first: place,
            budget,
            clock,
            checking: true,
        },
    );
    let after = scan::check_after(got);
    sessions::put_change(session, Change::ToCheck { check: after });
    Ok(got)
}

pub fn dcheck(
    session: &mut [u8],
    table: &mut [u8],
    list: &mut [u8],
    budget: usize,
) -> Result<Scanned, Refusal>
    ensures value { scan_numbers result ≡ (host_of (Dcheck budget) (lent_list session.old table.old list.old)).answer }
    ensures session_after { session.new ≡ (host_of (Dcheck budget) (lent_list session.old table.old list.old)).session }
    ensures table_after { table.new ≡ (host_of (Dcheck budget) (lent_list session.old table.old list.old)).table }
    ensures list_after { list.new ≡ (host_of (Dcheck budget) (lent_list session.old table.old list.old)).list }
{
    let session = session.as_mut_array().ok_or(Refusal::Malformed)?;
    reads::allow_lent(session, table.len())?;
    dcheck_sound(session, table, list, budget)
}
