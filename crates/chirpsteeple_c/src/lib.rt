// The eighteen functions of `chirpsteeple` as a C archive exports them: each calls its namesake there, and promises the same.

#![tactic(auto)]

ghost use Rattle.std.specs.Prelude.{◌≡◌};
ghost use Rattle.chirpsteeple.specs.Functions.{new_left, write_left, add_left, accept_left, block_left, unblock_left, remove_left};
ghost use Rattle.chirpsteeple.specs.Functions.{track_left, start_left, pause_left, new_epoch_left, reset_left, abort_left};
ghost use Rattle.chirpsteeple.specs.Functions.{token_left, dscan_left, dcheck_left, export_left, restore_left, token_to_c, scan_to_c, export_to_c, list_to_c};

use chirpsteeple::{ChirpExportAnswer, ChirpListAnswer, ChirpScanAnswer, ChirpTokenAnswer};

// ---- New, and the guest and memory calls

#[unsafe(no_mangle)]
pub extern "C" fn chirp_new(session: &mut [u8], table: &mut [u8], streams: u64) -> u64
    ensures value { result ≡ (new_left session.old table.old streams).answer.code }
    ensures session_after { session.new ≡ (new_left session.old table.old streams).session }
    ensures table_after { table.new ≡ (new_left session.old table.old streams).table }
{
    chirpsteeple::chirp_new(session, table, streams)
}

#[unsafe(no_mangle)]
pub extern "C" fn chirp_write(session: &[u8], table: &mut [u8], page: u64, mark: u64) -> u64
    ensures value { result ≡ (write_left session.now table.old page mark).answer.code }
    ensures session_value { session.now ≡ (write_left session.now table.old page mark).session }
    ensures table_after { table.new ≡ (write_left session.now table.old page mark).table }
{
    chirpsteeple::chirp_write(session, table, page, mark)
}

#[unsafe(no_mangle)]
pub extern "C" fn chirp_add(session: &[u8], table: &mut [u8], page: u64) -> u64
    ensures value { result ≡ (add_left session.now table.old page).answer.code }
    ensures session_value { session.now ≡ (add_left session.now table.old page).session }
    ensures table_after { table.new ≡ (add_left session.now table.old page).table }
{
    chirpsteeple::chirp_add(session, table, page)
}

#[unsafe(no_mangle)]
pub extern "C" fn chirp_accept(session: &[u8], table: &mut [u8], page: u64) -> u64
    ensures value { result ≡ (accept_left session.now table.old page).answer.code }
    ensures session_value { session.now ≡ (accept_left session.now table.old page).session }
    ensures table_after { table.new ≡ (accept_left session.now table.old page).table }
{
    chirpsteeple::chirp_accept(session, table, page)
}

#[unsafe(no_mangle)]
pub extern "C" fn chirp_block(session: &[u8], table: &mut [u8], page: u64) -> u64
    ensures value { result ≡ (block_left session.now table.old page).answer.code }
    ensures session_value { session.now ≡ (block_left session.now table.old page).session }
    ensures table_after { table.new ≡ (block_left session.now table.old page).table }
{
    chirpsteeple::chirp_block(session, table, page)
}

#[unsafe(no_mangle)]
pub extern "C" fn chirp_unblock(session: &[u8], table: &mut [u8], page: u64) -> u64
    ensures value { result ≡ (unblock_left session.now table.old page).answer.code }
    ensures session_value { session.now ≡ (unblock_left session.now table.old page).session }
    ensures table_after { table.new ≡ (unblock_left session.now table.old page).table }
{
    chirpsteeple::chirp_unblock(session, table, page)
}

#[unsafe(no_mangle)]
pub extern "C" fn chirp_remove(session: &[u8], table: &mut [u8], page: u64) -> u64
    ensures value { result ≡ (remove_left session.now table.old page).answer.code }
    ensures session_value { session.now ≡ (remove_left session.now table.old page).session }
    ensures table_after { table.new ≡ (remove_left session.now table.old page).table }
{
    chirpsteeple::chirp_remove(session, table, page)
}

#[unsafe(no_mangle)]
pub extern "C" fn chirp_track(session: &mut [u8], table: &mut [u8]) -> u64
    ensures value { result ≡ (track_left session.old table.old).answer.code }
    ensures session_after { session.new ≡ (track_left session.old table.old).session }
    ensures table_after { table.new ≡ (track_left session.old table.old).table }
{
    chirpsteeple::chirp_track(session, table)
}

// ---- the session calls

#[unsafe(no_mangle)]
pub extern "C" fn chirp_start(session: &mut [u8], table: &mut [u8]) -> u64
    ensures value { result ≡ (start_left session.old table.old).answer.code }
    ensures session_after { session.new ≡ (start_left session.old table.old).session }
    ensures table_after { table.new ≡ (start_left session.old table.old).table }
{
    chirpsteeple::chirp_start(session, table)
}

#[unsafe(no_mangle)]
pub extern "C" fn chirp_pause(session: &mut [u8], table: &mut [u8]) -> u64
    ensures value { result ≡ (pause_left session.old table.old).answer.code }
    ensures session_after { session.new ≡ (pause_left session.old table.old).session }
    ensures table_after { table.new ≡ (pause_left session.old table.old).table }
{
    chirpsteeple::chirp_pause(session, table)
}

#[unsafe(no_mangle)]
pub extern "C" fn chirp_new_epoch(session: &mut [u8], table: &[u8]) -> u64
    ensures value { result ≡ (new_epoch_left session.old table.now).answer.code }
    ensures session_after { session.new ≡ (new_epoch_left session.old table.now).session }
    ensures table_value { table.now ≡ (new_epoch_left session.old table.now).table }
{
    chirpsteeple::chirp_new_epoch(session, table)
}

#[unsafe(no_mangle)]
pub extern "C" fn chirp_reset(session: &mut [u8], table: &[u8]) -> u64
    ensures value { result ≡ (reset_left session.old table.now).answer.code }
    ensures session_after { session.new ≡ (reset_left session.old table.now).session }
    ensures table_value { table.now ≡ (reset_left session.old table.now).table }
{
    chirpsteeple::chirp_reset(session, table)
}

#[unsafe(no_mangle)]
pub extern "C" fn chirp_abort(session: &mut [u8], table: &[u8]) -> u64
    ensures value { result ≡ (abort_left session.old table.now).answer.code }
    ensures session_after { session.new ≡ (abort_left session.old table.now).session }
    ensures table_value { table.now ≡ (abort_left session.old table.now).table }
{
    chirpsteeple::chirp_abort(session, table)
}

#[unsafe(no_mangle)]
pub extern "C" fn chirp_start_token(session: &mut [u8], table: &[u8]) -> ChirpTokenAnswer
    ensures value { result ≡ token_to_c (token_left session.old table.now).answer }
    ensures session_after { session.new ≡ (token_left session.old table.now).session }
    ensures table_value { table.now ≡ (token_left session.old table.now).table }
{
    chirpsteeple::chirp_start_token(session, table)
}

// ---- scans, export and RESTORE

#[unsafe(no_mangle)]
pub extern "C" fn chirp_dscan(
    session: &[u8],
    table: &mut [u8],
    first: u64,
    count: u64,
    list: &mut [u8],
    budget: u64,
) -> ChirpScanAnswer
    ensures value { result ≡ scan_to_c (dscan_left session.now table.old first count list.old budget).answer }
    ensures session_value { session.now ≡ (dscan_left session.now table.old first count list.old budget).session }
    ensures table_after { table.new ≡ (dscan_left session.now table.old first count list.old budget).table }
    ensures list_after { list.new ≡ (dscan_left session.now table.old first count list.old budget).list }
{
    chirpsteeple::chirp_dscan(session, table, first, count, list, budget)
}

#[unsafe(no_mangle)]
pub extern "C" fn chirp_dcheck(
    session: &mut [u8],
    table: &mut [u8],
    list: &mut [u8],
    budget: u64,
) -> ChirpScanAnswer
    ensures value { result ≡ scan_to_c (dcheck_left session.old table.old list.old budget).answer }
    ensures session_after { session.new ≡ (dcheck_left session.old table.old list.old budget).session }
    ensures table_after { table.new ≡ (dcheck_left session.old table.old list.old budget).table }
    ensures list_after { list.new ≡ (dcheck_left session.old table.old list.old budget).list }
{
    chirpsteeple::chirp_dcheck(session, table, list, budget)
}

#[unsafe(no_mangle)]
pub extern "C" fn chirp_export(
    session: &mut [u8],
    table: &mut [u8],
    list: &mut [u8],
    buffer: &mut [u8],
    stream: u64,
    resume: u64,
    info: u64,
    budget: u64,
) -> ChirpExportAnswer
    ensures value { result ≡ export_to_c (export_left session.old table.old list.old
        buffer.old stream resume info budget).answer }
    ensures session_after { session.new ≡ (export_left session.old table.old list.old
        buffer.old stream resume info budget).session }
    ensures table_after { table.new ≡ (export_left session.old table.old list.old
        buffer.old stream resume info budget).table }
    ensures list_after { list.new ≡ (export_left session.old table.old list.old
        buffer.old stream resume info budget).list }
    ensures buffer_after { buffer.new ≡ (export_left session.old table.old list.old
        buffer.old stream resume info budget).buffer }
{
    chirpsteeple::chirp_export(session, table, list, buffer, stream, resume, info, budget)
}

#[unsafe(no_mangle)]
pub extern "C" fn chirp_restore(
    session: &[u8],
    table: &mut [u8],
    list: &mut [u8],
    info: u64,
    budget: u64,
) -> ChirpListAnswer
    ensures value { result ≡ list_to_c (restore_left session.now table.old list.old info budget).answer }
    ensures session_value { session.now ≡ (restore_left session.now table.old list.old info budget).session }
    ensures table_after { table.new ≡ (restore_left session.now table.old list.old info budget).table }
    ensures list_after { list.new ≡ (restore_left session.now table.old list.old info budget).list }
{
    chirpsteeple::chirp_restore(session, table, list, info, budget)
}
