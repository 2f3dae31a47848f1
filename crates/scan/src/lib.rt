// The scans: DSCAN looks for pages to export in a part of the table while the guest runs, DCHECK in the rest of it once the guest is paused.

#![tactic(auto)]

ghost use Rattle.std.specs.Prelude.{◌≡◌, ◌+◌, ◌*◌, ◌≤◌, ◌<◌, length, set};
ghost use Rattle.refusals.specs.Refusals.{first_of, ending_number, code_of};
ghost use Rattle.page.specs.Page.{page_of, on_words};
ghost use Rattle.table.specs.Table.{most_pages, page_count, words_at, put_at};
ghost use Rattle.session.specs.Formed.{behind};
ghost use Rattle.scan.specs.Look.{listed_word, listed_page};
ghost use Rattle.scan.specs.Scan.{stop_code, Stops, end_code, scanned_of, scan_run, range_run, written_of, answer_of, scan_answer_of, check_after};
ghost use Rattle.scan.specs.Scan.{within_table, dscan_asks, dscan_out, dcheck_asks, dcheck_out};

use page::{Clock, PageWords, queries};
use refusals::{Ending, Refusal, told};
use session::changes::Change;
use session::{Check, Session, When, changes, streams};
use table::{Form, InWords};

// What a scan makes of one page.
pub mod looks;

// What a scan goes by.
#[derive(Clone, Copy)]
pub struct Scan {
    // The number of its first page.
    pub first: usize,
    pub budget: usize,
    pub clock: Clock,
    // It is a DCHECK, which a blocked page ends.
    pub checking: bool,
}

// How a scan ended: the page that it stands at, and how many words it has written.
#[derive(Clone, Copy)]
pub struct Scanned {
    pub ending: Ending,
    pub next: usize,
    pub put: usize,
}

// What a scan answers: the next page, and the first and the last entry of its list.
#[derive(Clone, Copy)]
pub struct ScanAnswer {
    pub ending: Ending,
    pub next: usize,
    pub first: u64,
    pub last: u64,
    pub session: Session,
}

// ---- the run

// Why a scan does not visit the page that it stands at, with `i` pages passed and `put` words written; `None` if it does.
pub fn stop(
    scan: Scan,
    blocked: bool,
    listed: bool,
    i: usize,
    put: usize,
    room: usize,
) -> Option<Ending>
    ensures { Stops (stop_code scan blocked listed i put room) result }
{
    if scan.budget <= i {
        return Some(Ending::Interrupted);
    }
    if scan.checking & blocked {
        return Some(Ending::MemScanFailedBlockedRange);
    }
    if listed & (room <= put) {
        return Some(Ending::ListFull);
    }
    None
}

// How it ends past the last page.
pub fn end(checking: bool) -> Ending
    ensures { ending_number result ≡ end_code checking }
{
    if checking {
        Ending::CheckComplete
    } else {
        Ending::Done
    }
}

// The words of the page that the scan stands at, which the budget reaches: what it does not reach may not even be mapped.
fn reached<T: Form>(part: &[T::Unit], scan: Scan, i: usize) -> PageWords
    requires { i < scan.budget }
    ensures { result ≡ words_at (T.words part.now) i }
{
    T::load(part, i)
}

// A page that is listed goes into the part, and its word into the list.
fn visit<T: Form>(
    part: &mut [T::Unit],
    list: &mut [T::Unit],
    scan: Scan,
    i: usize,
    put: usize,
    w: PageWords,
)
    requires { scan.first + i < most_pages }
    ensures part_after { T.words part.new ≡ put_at (T.words part.old) i (on_words (listed_page scan.clock) w) }
    ensures list_after { T.words list.new ≡ set (T.words list.old) put (listed_word (page_of w).state (scan.first + i)) }
{
    T::store(part, i, looks::listed_words(w, scan.clock));
    T::put(list, put, looks::listed_word(w, scan.first + i));
}

// The pages of a part of the table in turn. A page that the budget does not reach is not looked at. Most pages are neither blocked nor listed, and are passed at
// once.
pub fn scan_part<T: Form>(part: &mut [T::Unit], list: &mut [T::Unit], scan: Scan) -> Scanned
    requires { scan.first + page_count (T.words part.old) ≤ most_pages }
    ensures value { scanned_of result ≡ (scan_run (page_count (T.words part.old)) scan 0 0
        (T.words part.old) (T.words list.old)).scanned }
    ensures part_after { T.words part.new ≡ (scan_run (page_count (T.words part.old)) scan 0 0
        (T.words part.old) (T.words list.old)).part }
    ensures list_after { T.words list.new ≡ (scan_run (page_count (T.words part.old)) scan 0 0
        (T.words part.old) (T.words list.old)).list }
{
    let n = T::pages(part);
    let mut put = 0;
    for i in 0..n {
        if i >= scan.budget {
            return Scanned {
                ending: Ending::Interrupted,
                next: scan.first + i,
                put,
            };
        }
        let words = reached::<T>(part, scan, i);
        let blocked = queries::is_blocked(words);
        let listed = looks::is_listed(words);
        if blocked | listed {
            if let Some(ending) = stop(scan, blocked, listed, i, put, T::len(list)) {
                return Scanned {
                    ending,
                    next: scan.first + i,
                    put,
                };
            }
            if listed {
                visit::<T>(part, list, scan, i, put, words);
                put += 1;
            }
        }
    }
    Scanned {
        ending: end(scan.checking),
        next: scan.first + n,
        put,
    }
}

// `count` pages of the table from the scan's first page on.
fn scan_range(table: &mut [u64], list: &mut [u64], count: usize, scan: Scan) -> Scanned
    requires { (2 * scan.first + 2 * count ≤ length table.old) × (length table.old ≤ 2 * most_pages) }
    ensures value { scanned_of result ≡ (range_run count scan table.old list.old).scanned }
    ensures table_after { table.new ≡ (range_run count scan table.old list.old).part }
    ensures list_after { list.new ≡ (range_run count scan table.old list.old).list }
{
    let from = 2 * scan.first;
    let to = from + 2 * count;
    scan_part::<InWords>(&mut table[from..to], list, scan)
}

// ---- the answer

// The first and the last entry of a list.
#[derive(Clone, Copy)]
pub struct Written {
    pub first: u64,
    pub last: u64,
}

// 0 and count−1; 511 and 0, document 01's numbers, where a scan ran and listed nothing.
pub fn written_of(put: usize) -> Written
    ensures { result ≡ written_of put }
{
    match put.checked_sub(1) {
        Some(last) => Written {
            first: 0,
            last: last as u64,
        },
        None => Written {
            first: streams::LAST_ENTRY,
            last: 0,
        },
    }
}

fn answer(got: Scanned, session: Session) -> ScanAnswer
    ensures { scan_answer_of session (Ok result) ≡ answer_of (scanned_of got) session }
{
    let w = written_of(got.put);
    ScanAnswer {
        ending: got.ending,
        next: got.next,
        first: w.first,
        last: w.last,
        session,
    }
}

// ---- DSCAN

// One page or more, all of them the table's.
fn is_within(first: usize, count: usize, pages: usize) -> bool
    ensures { result ≡ within_table first count pages }
{
    match pages.checked_sub(first) {
        Some(left) => (1 <= count) & (count <= left),
        None => false,
    }
}

pub fn allow_dscan(pages: usize, room: usize, first: usize, count: usize) -> Result<(), Refusal>
    ensures { code_of result ≡ first_of (dscan_asks pages room first count) }
{
    if !is_within(first, count, pages) {
        return Err(Refusal::OperandInvalid);
    }
    if streams::MOST_ENTRIES < room {
        return Err(Refusal::OperandInvalid);
    }
    Ok(())
}

// The same told the code of its gate, for whoever holds that in place of a `Result`.
pub fn dscan_code(gate: u64, pages: usize, room: usize, first: usize, count: usize) -> u64
    ensures { result ≡ behind gate (dscan_asks pages room first count) }
{
    told(gate, allow_dscan(pages, room, first, count))
}

// Scans `count` pages from page `first` on, and leaves the session as it was.
pub fn dscan(
    s: Session,
    table: &mut [u64],
    list: &mut [u64],
    first: usize,
    count: usize,
    budget: usize,
) -> Result<ScanAnswer, Refusal>
    ensures value { scan_answer_of s result ≡ (dscan_out s table.old list.old first count budget).answer }
    ensures table_after { table.new ≡ (dscan_out s table.old list.old first count budget).table }
    ensures list_after { list.new ≡ (dscan_out s table.old list.old first count budget).list }
{
    session::gate(s, table.len(), When::Live)?;
    allow_dscan(s.fixed.pages, list.len(), first, count)?;
    let got = scan_range(
        table,
        list,
        count,
        Scan {
            first,
            budget,
            clock: s.clock,
            checking: false,
        },
    );
    Ok(answer(got, s))
}

// ---- DCHECK

pub fn allow_dcheck(check: Check, room: usize) -> Result<(), Refusal>
    ensures { code_of result ≡ first_of (dcheck_asks check room) }
{
    if streams::MOST_ENTRIES < room {
        return Err(Refusal::OperandInvalid);
    }
    if check.complete | check.failed {
        return Err(Refusal::MemScanResetRequired);
    }
    Ok(())
}

// The same told the code of its gate.
pub fn dcheck_code(gate: u64, check: Check, room: usize) -> u64
    ensures { result ≡ behind gate (dcheck_asks check room) }
{
    told(gate, allow_dcheck(check, room))
}

// The check where the scan ended.
pub fn check_after(got: Scanned) -> Check
    ensures { result ≡ check_after (scanned_of got) }
{
    Check {
        place: got.next,
        complete: got.ending == Ending::CheckComplete,
        failed: got.ending == Ending::MemScanFailedBlockedRange,
    }
}

// The same of any code that a scan may have ended with, a number that is none included.
pub fn check_told(code: u64, next: usize) -> Check
    ensures { result ≡ check_after (record { code = code; next = next; put = 0 }) }
{
    Check {
        place: next,
        complete: code == u64::from(Ending::CheckComplete),
        failed: code == u64::from(Ending::MemScanFailedBlockedRange),
    }
}

// Goes on from the session's place.
pub fn dcheck(
    s: Session,
    table: &mut [u64],
    list: &mut [u64],
    budget: usize,
) -> Result<ScanAnswer, Refusal>
    ensures value { scan_answer_of s result ≡ (dcheck_out s table.old list.old budget).answer }
    ensures table_after { table.new ≡ (dcheck_out s table.old list.old budget).table }
    ensures list_after { list.new ≡ (dcheck_out s table.old list.old budget).list }
{
    session::gate(s, table.len(), When::Blackout)?;
    allow_dcheck(s.check, list.len())?;
    let place = s.check.place;
    let got = scan_range(
        table,
        list,
        s.fixed.pages - place,
        Scan {
            first: place,
            budget,
            clock: s.clock,
            checking: true,
        },
    );
    let session = changes::changed(
        s,
        Change::ToCheck {
            check: check_after(got),
        },
    );
    Ok(answer(got, session))
}
