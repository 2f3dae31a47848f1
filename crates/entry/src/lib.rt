// One entry of a list that is exported: what becomes of its word and of its page, as a pure step on the ground that the whole call stands on.

#![tactic(auto)]

ghost use Rattle.std.specs.Prelude.{◌≡◌, cond, false};
ghost use Rattle.words.specs.Statuses.{failure_number, status_number};
ghost use Rattle.states.specs.States.{number_of, goes_by};
ghost use Rattle.states.specs.Lists.{exports};
ghost use Rattle.page.specs.Page.{page_of, strange, words_for, on_words};
ghost use Rattle.entry.specs.Entry.{ground_of, plain, invalid, unexportable, status_of, answer_word, exported_page, sent_entry, failed_entry, taken_of};

use page::{Clock, PageWords, queries};
use records::Record;
use session::{Phase, Session};
use words::entries::Entry;
use words::statuses::Failure;
use words::{operations, statuses};

// What an export is made against.
#[derive(Clone, Copy)]
pub struct Ground {
    pub phase: Phase,
    pub clock: Clock,
    // The migration epoch.
    pub epoch: u64,
    // The page count.
    pub pages: u64,
}

pub fn ground_of(s: Session) -> Ground
    ensures { result ≡ ground_of s }
{
    let phase = s.phase;
    let clock = s.clock;
    Ground {
        phase,
        clock,
        epoch: s.epoch,
        pages: s.fixed.pages as u64,
    }
}

#[derive(Clone, Copy)]
pub struct Taken {
    // A number, as `Promises::entry` and `failed` of `calls` have it.
    pub status: u64,
    // The entry as it comes back.
    pub word: u64,
    pub buffer: u64,
    // The page's words afterwards.
    pub words: PageWords,
    // The buffer holds the page's contents.
    pub contents: bool,
}

// Reserved bits, LEVEL and MIG_TYPE are 0, as in every entry that a call takes.
pub fn is_plain(e: Entry) -> bool
    ensures { result ≡ plain e }
{
    (e.reserved5 == 0)
        & (e.reserved54 == 0)
        & (e.reserved61 == 0)
        & (e.level == 0)
        & (e.mig_type == 0)
}

// A form that no entry of an export may have.
fn is_invalid(e: Entry) -> bool
    ensures { result ≡ invalid e }
{
    !(is_plain(e) & (e.operation < 2))
}

// Its state bars it: status 4.
fn is_unexportable(w: PageWords) -> bool
    ensures { result ≡ unexportable (page_of w) }
{
    let n = page::state_of(w);
    let p = Record::from(w.word);
    states::is_strange(n) | states::is_barred(n) | (states::is_sent(n) & !p.dirty)
}

// Why an entry is not taken: the first test that holds.
fn allow_entry(e: Entry, w: PageWords, g: Ground) -> Result<(), Failure>
    ensures { status_number result ≡ status_of e (page_of w) g }
{
    let phase = g.phase;
    let p = Record::from(w.word);
    let cancelled = states::is_cancelled(page::state_of(w));
    let comes = session::comes_in(phase);
    let tracked = queries::is_tracked(p.stamp, g.clock);
    let beyond = g.pages <= e.gpa;
    let again = p.migrated == g.epoch;
    let dirty = !cancelled & p.dirty;
    let early = !cancelled & comes.live & !tracked;
    if is_invalid(e) {
        return Err(Failure::GpaListEntryInvalid);
    }
    if e.operation == operations::NOP {
        return Err(Failure::Skipped);
    }
    if beyond {
        return Err(Failure::SeptWalkFailed);
    }
    if is_unexportable(w) {
        return Err(Failure::SeptEntryStateIncorrect);
    }
    if again {
        return Err(Failure::MigratedInCurrentEpoch);
    }
    if dirty {
        return Err(Failure::PageDirty);
    }
    if early {
        return Err(Failure::TlbTrackingNotDone);
    }
    Ok(())
}

// The entry as it comes back.
fn answer_word(e: Entry, pending: bool, operation: u64, status: u64) -> u64
    ensures { result ≡ answer_word e pending operation status }
{
    u64::from(Entry {
        level: e.level,
        pending,
        state: 0,
        reserved5: e.reserved5,
        l2_map: 0,
        mig_type: e.mig_type,
        gpa: e.gpa,
        operation,
        reserved54: e.reserved54,
        status,
        reserved61: e.reserved61,
    })
}

// In another state, exported in this epoch, if it is not strange.
fn exported(w: PageWords, to: u8, epoch: u64) -> PageWords
    ensures { strange (page_of w) ≡ false → to ≡ number_of (goes_by exports (page_of w).state) → result ≡ words_for (exported_page epoch (page_of w)) }
{
    let moved = records::set_state(w.word, to);
    let word = records::set_migrated(moved, epoch);
    PageWords { word, mark: w.mark }
}

fn export_words(w: PageWords, epoch: u64) -> PageWords
    ensures { result ≡ on_words (exported_page epoch) w }
{
    page::unless_strange(w, |n| exported(w, states::export_of(n), epoch))
}

// The mark for what is data, else 0.
fn buffer_word(contents: bool, mark: u64) -> u64
    ensures { result ≡ cond contents mark 0 }
{
    if contents { mark } else { 0 }
}

fn succeed(e: Entry, w: PageWords, epoch: u64) -> Taken
    ensures { result ≡ sent_entry e w epoch }
{
    let n = page::state_of(w);
    let pending = states::is_pending(n);
    let operation = states::operation_of(n);
    let contents = states::is_data(n);
    let word = answer_word(e, pending, operation, statuses::SUCCESS);
    let buffer = buffer_word(contents, w.mark);
    let words = export_words(w, epoch);
    Taken {
        status: statuses::SUCCESS,
        word,
        buffer,
        words,
        contents,
    }
}

fn fail(e: Entry, w: PageWords, failure: Failure) -> Taken
    ensures { result ≡ failed_entry e w (failure_number failure) }
{
    let status = u64::from(failure);
    let word = answer_word(e, false, operations::NOP, status);
    Taken {
        status,
        word,
        buffer: 0,
        words: w,
        contents: false,
    }
}

// The entry with this word, on the words of the page that it names.
pub fn take_entry(word: u64, w: PageWords, g: Ground) -> Taken
    ensures { result ≡ taken_of word w g }
{
    let e = Entry::from(word);
    match allow_entry(e, w, g) {
        Ok(()) => succeed(e, w, g.epoch),
        Err(failure) => fail(e, w, failure),
    }
}
