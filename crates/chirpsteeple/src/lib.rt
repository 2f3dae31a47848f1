// The eighteen functions that C, Rust and Python call, on numbers and byte slices. No caller is asked to have checked anything. `chirpsteeple_c` gives them to C
// under the same names.

#![tactic(auto)]

ghost use Rattle.std.specs.Prelude.{◌≡◌};
ghost use Rattle.host.specs.Host.{Left, token_numbers};
ghost use Rattle.host_lists.specs.Inside.{scan_numbers, export_numbers, restore_numbers};
ghost use Rattle.chirpsteeple.specs.Functions.{new_left, write_left, add_left, accept_left, block_left, unblock_left, remove_left};
ghost use Rattle.chirpsteeple.specs.Functions.{track_left, start_left, pause_left, new_epoch_left, reset_left, abort_left};
ghost use Rattle.chirpsteeple.specs.Functions.{token_left, dscan_left, dcheck_left, export_left, restore_left, token_to_c, scan_to_c, export_to_c, list_to_c};

use host::{pages, sweeps, tables};
use host_lists::{exports, restores, scans};
use migration::Alone;
use migration::token::Obstacle;
use page::moves::Move;
use page::sweeps::Sweep;
use refusals::{Refusal, code_of};
use scan::Scanned;

// ---- C's structs, in which a code is a number. The functions have C's parameters in C's order.

// What the start token answers; the page is that in the way of 53 and 54.
#[repr(C)]
#[derive(Clone, Copy)]
pub struct ChirpTokenAnswer {
    pub code: u64,
    pub page: u64,
}

#[repr(C)]
#[derive(Clone, Copy)]
pub struct ChirpScanAnswer {
    pub code: u64,
    pub next: u64,
    pub first: u64,
    pub last: u64,
}

#[repr(C)]
#[derive(Clone, Copy)]
pub struct ChirpExportAnswer {
    pub code: u64,
    pub info: u64,
    pub errors: u64,
    pub buffers: u64,
}

// What RESTORE answers.
#[repr(C)]
#[derive(Clone, Copy)]
pub struct ChirpListAnswer {
    pub code: u64,
    pub info: u64,
}

// ---- New, and the guest and memory calls

pub fn chirp_new(session: &mut [u8], table: &mut [u8], streams: u64) -> u64
    ensures value { result ≡ (new_left session.old table.old streams).answer.code }
    ensures session_after { session.new ≡ (new_left session.old table.old streams).session }
    ensures table_after { table.new ≡ (new_left session.old table.old streams).table }
{
    code_of(sweeps::new(session, table, streams))
}

pub fn chirp_write(session: &[u8], table: &mut [u8], page: u64, mark: u64) -> u64
    ensures value { result ≡ (write_left session.now table.old page mark).answer.code }
    ensures session_value { session.now ≡ (write_left session.now table.old page mark).session }
    ensures table_after { table.new ≡ (write_left session.now table.old page mark).table }
{
    code_of(pages::on_page(Move::Write { mark }, session, table, page))
}

pub fn chirp_add(session: &[u8], table: &mut [u8], page: u64) -> u64
    ensures value { result ≡ (add_left session.now table.old page).answer.code }
    ensures session_value { session.now ≡ (add_left session.now table.old page).session }
    ensures table_after { table.new ≡ (add_left session.now table.old page).table }
{
    code_of(pages::on_page(Move::Add, session, table, page))
}

pub fn chirp_accept(session: &[u8], table: &mut [u8], page: u64) -> u64
    ensures value { result ≡ (accept_left session.now table.old page).answer.code }
    ensures session_value { session.now ≡ (accept_left session.now table.old page).session }
    ensures table_after { table.new ≡ (accept_left session.now table.old page).table }
{
    code_of(pages::on_page(Move::Accept, session, table, page))
}

pub fn chirp_block(session: &[u8], table: &mut [u8], page: u64) -> u64
    ensures value { result ≡ (block_left session.now table.old page).answer.code }
    ensures session_value { session.now ≡ (block_left session.now table.old page).session }
    ensures table_after { table.new ≡ (block_left session.now table.old page).table }
{
    code_of(pages::on_page(Move::Block, session, table, page))
}

pub fn chirp_unblock(session: &[u8], table: &mut [u8], page: u64) -> u64
    ensures value { result ≡ (unblock_left session.now table.old page).answer.code }
    ensures session_value { session.now ≡ (unblock_left session.now table.old page).session }
    ensures table_after { table.new ≡ (unblock_left session.now table.old page).table }
{
    code_of(pages::on_page(Move::Unblock, session, table, page))
}

pub fn chirp_remove(session: &[u8], table: &mut [u8], page: u64) -> u64
    ensures value { result ≡ (remove_left session.now table.old page).answer.code }
    ensures session_value { session.now ≡ (remove_left session.now table.old page).session }
    ensures table_after { table.new ≡ (remove_left session.now table.old page).table }
{
    code_of(pages::on_page(Move::Remove, session, table, page))
}

pub fn chirp_track(session: &mut [u8], table: &mut [u8]) -> u64
    ensures value { result ≡ (track_left session.old table.old).answer.code }
    ensures session_after { session.new ≡ (track_left session.old table.old).session }
    ensures table_after { table.new ≡ (track_left session.old table.old).table }
{
    code_of(sweeps::on_all(Sweep::Track, session, table))
}

// ---- the session calls

pub fn chirp_start(session: &mut [u8], table: &mut [u8]) -> u64
    ensures value { result ≡ (start_left session.old table.old).answer.code }
    ensures session_after { session.new ≡ (start_left session.old table.old).session }
    ensures table_after { table.new ≡ (start_left session.old table.old).table }
{
    code_of(sweeps::on_all(Sweep::Start, session, table))
}

pub fn chirp_pause(session: &mut [u8], table: &mut [u8]) -> u64
    ensures value { result ≡ (pause_left session.old table.old).answer.code }
    ensures session_after { session.new ≡ (pause_left session.old table.old).session }
    ensures table_after { table.new ≡ (pause_left session.old table.old).table }
{
    code_of(sweeps::on_all(Sweep::Pause, session, table))
}

pub fn chirp_new_epoch(session: &mut [u8], table: &[u8]) -> u64
    ensures value { result ≡ (new_epoch_left session.old table.now).answer.code }
    ensures session_after { session.new ≡ (new_epoch_left session.old table.now).session }
    ensures table_value { table.now ≡ (new_epoch_left session.old table.now).table }
{
    code_of(tables::on_session(Alone::NewEpoch, session, table))
}

pub fn chirp_reset(session: &mut [u8], table: &[u8]) -> u64
    ensures value { result ≡ (reset_left session.old table.now).answer.code }
    ensures session_after { session.new ≡ (reset_left session.old table.now).session }
    ensures table_value { table.now ≡ (reset_left session.old table.now).table }
{
    code_of(tables::on_session(Alone::Reset, session, table))
}

pub fn chirp_abort(session: &mut [u8], table: &[u8]) -> u64
    ensures value { result ≡ (abort_left session.old table.now).answer.code }
    ensures session_after { session.new ≡ (abort_left session.old table.now).session }
    ensures table_value { table.now ≡ (abort_left session.old table.now).table }
{
    code_of(tables::on_session(Alone::Abort, session, table))
}

fn token_answer(outcome: Result<(), Obstacle>) -> ChirpTokenAnswer
    ensures { result ≡ token_to_c (token_numbers outcome) }
{
    match outcome {
        Ok(()) => ChirpTokenAnswer { code: 0, page: 0 },
        Err(Obstacle::Refused(refusal)) => ChirpTokenAnswer {
            code: u64::from(refusal),
            page: 0,
        },
        Err(Obstacle::InTheWay { refusal, page }) => ChirpTokenAnswer {
            code: u64::from(refusal),
            page: page as u64,
        },
    }
}

pub fn chirp_start_token(session: &mut [u8], table: &[u8]) -> ChirpTokenAnswer
    ensures value { result ≡ token_to_c (token_left session.old table.now).answer }
    ensures session_after { session.new ≡ (token_left session.old table.now).session }
    ensures table_value { table.now ≡ (token_left session.old table.now).table }
{
    token_answer(tables::start_token(session, table))
}

// ---- scans, export and RESTORE

fn scan_answer(outcome: Result<Scanned, Refusal>) -> ChirpScanAnswer
    ensures { result ≡ scan_to_c (scan_numbers outcome) }
{
    match outcome {
        Ok(got) => {
            let w = scan::written_of(got.put);
            ChirpScanAnswer {
                code: u64::from(got.ending),
                next: got.next as u64,
                first: w.first,
                last: w.last,
            }
        }
        Err(refusal) => ChirpScanAnswer {
            code: u64::from(refusal),
            next: 0,
            first: 0,
            last: 0,
        },
    }
}

fn export_answer(outcome: Result<exports::Sent, Refusal>) -> ChirpExportAnswer
    ensures { result ≡ export_to_c (export_numbers outcome) }
{
    match outcome {
        Ok(e) => ChirpExportAnswer {
            code: u64::from(e.ending),
            info: e.info,
            errors: e.errors,
            buffers: e.buffers,
        },
        Err(refusal) => ChirpExportAnswer {
            code: u64::from(refusal),
            info: 0,
            errors: 0,
            buffers: 0,
        },
    }
}

fn list_answer(outcome: Result<restore::Ended, Refusal>) -> ChirpListAnswer
    ensures { result ≡ list_to_c (restore_numbers outcome) }
{
    match outcome {
        Ok(e) => ChirpListAnswer {
            code: u64::from(e.ending),
            info: e.info,
        },
        Err(refusal) => ChirpListAnswer {
            code: u64::from(refusal),
            info: 0,
        },
    }
}

pub fn chirp_dscan(
    session: &[u8],
    table: &mut [u8],
    first: u64,
    count: u64,
    list: &mut [u8],
    budget: u64,
) -> ChirpScanAnswer
    ensures value { result ≡ scan_to_c (dscan_left session.now table.old first count list.old budget).answer }
    ensures session_value { session.now ≡ (dscan_left session.now table.old first count list.old budget).session }
    ensures table_after { table.new ≡ (dscan_left session.now table.old first count list.old budget).table }
    ensures list_after { list.new ≡ (dscan_left session.now table.old first count list.old budget).list }
{
    scan_answer(scans::dscan(
        session,
        table,
        list,
        first as usize,
        count as usize,
        budget as usize,
    ))
}

pub fn chirp_dcheck(
    session: &mut [u8],
    table: &mut [u8],
    list: &mut [u8],
    budget: u64,
) -> ChirpScanAnswer
    ensures value { result ≡ scan_to_c (dcheck_left session.old table.old list.old budget).answer }
    ensures session_after { session.new ≡ (dcheck_left session.old table.old list.old budget).session }
    ensures table_after { table.new ≡ (dcheck_left session.old table.old list.old budget).table }
    ensures list_after { list.new ≡ (dcheck_left session.old table.old list.old budget).list }
{
    scan_answer(scans::dcheck(session, table, list, budget as usize))
}

pub fn chirp_export(
    session: &mut [u8],
    table: &mut [u8],
    list: &mut [u8],
    buffer: &mut [u8],
    stream: u64,
    resume: u64,
    info: u64,
    budget: u64,
) -> ChirpExportAnswer
    ensures value { result ≡ export_to_c (export_left session.old table.old list.old
        buffer.old stream resume info budget).answer }
    ensures session_after { session.new ≡ (export_left session.old table.old list.old
        buffer.old stream resume info budget).session }
    ensures table_after { table.new ≡ (export_left session.old table.old list.old
        buffer.old stream resume info budget).table }
    ensures list_after { list.new ≡ (export_left session.old table.old list.old
        buffer.old stream resume info budget).list }
    ensures buffer_after { buffer.new ≡ (export_left session.old table.old list.old
        buffer.old stream resume info budget).buffer }
{
    export_answer(exports::export(session, table, list, buffer, stream, resume, info, budget))
}

pub fn chirp_restore(
    session: &[u8],
    table: &mut [u8],
    list: &mut [u8],
    info: u64,
    budget: u64,
) -> ChirpListAnswer
    ensures value { result ≡ list_to_c (restore_left session.now table.old list.old info budget).answer }
    ensures session_value { session.now ≡ (restore_left session.now table.old list.old info budget).session }
    ensures table_after { table.new ≡ (restore_left session.now table.old list.old info budget).table }
    ensures list_after { list.new ≡ (restore_left session.now table.old list.old info budget).list }
{
    list_answer(restores::restore(session, table, list, info, budget))
}
