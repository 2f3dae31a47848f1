// One entry of a list that is restored: what becomes of its word and of its page, as a pure step on the ground that the whole call stands on.

#![tactic(auto)]

ghost use Rattle.std.specs.Prelude.{◌≡◌};
ghost use Rattle.words.specs.Entry.{entry_of};
ghost use Rattle.words.specs.Statuses.{failure_number, status_number};
ghost use Rattle.page.specs.Page.{page_of};
ghost use Rattle.restoring.specs.Restoring.{faulty, restore_status, told_word, restored_entry, left_entry, restored_of};

use entry::{Ground, Taken};
use page::{PageWords, queries, sweeps};
use words::entries::Entry;
use words::statuses::Failure;
use words::{entries, operations, statuses};

// A form that no entry of a RESTORE may have.
fn is_faulty(e: Entry) -> bool
    ensures { result ≡ faulty e }
{
    !(entry::is_plain(e) & (e.state == 0))
}

// Why an entry is not restored: the first test that holds.
fn allow_restored(e: Entry, w: PageWords, g: Ground) -> Result<(), Failure>
    ensures { status_number result ≡ restore_status e (page_of w) g }
{
    let nop = e.operation % 2 != operations::RESTORE;
    if is_faulty(e) {
        return Err(Failure::GpaListEntryInvalid);
    }
    if nop {
        return Err(Failure::Skipped);
    }
    if g.pages <= e.gpa {
        return Err(Failure::SeptWalkFailed);
    }
    if !queries::is_left(w) {
        return Err(Failure::SeptEntryStateIncorrect);
    }
    Ok(())
}

// The entry as it comes back.
fn told_word(word: u64, operation: u64, status: u64) -> u64
    ensures { result ≡ told_word (entry_of word) operation status }
{
    let done = entries::set_operation(word, operation);
    entries::set_status(done, status)
}

fn succeed(word: u64, held: u64, w: PageWords) -> Taken
    ensures { result ≡ restored_entry (entry_of word) held w }
{
    let told = told_word(word, operations::RESTORE, statuses::SUCCESS);
    let words = sweeps::restore_words(w);
    Taken {
        status: statuses::SUCCESS,
        word: told,
        buffer: held,
        words,
        contents: false,
    }
}

fn fail(word: u64, held: u64, w: PageWords, failure: Failure) -> Taken
    ensures { result ≡ left_entry (entry_of word) held w (failure_number failure) }
{
    let status = u64::from(failure);
    let told = told_word(word, operations::NOP, status);
    Taken {
        status,
        word: told,
        buffer: held,
        words: w,
        contents: false,
    }
}

// The entry with this word, on the words of the page that it names; `held` is its word in a buffer, which stays.
pub fn take_entry(word: u64, held: u64, w: PageWords, g: Ground) -> Taken
    ensures { result ≡ restored_of word held w g }
{
    let e = Entry::from(word);
    match allow_restored(e, w, g) {
        Ok(()) => succeed(word, held, w),
        Err(failure) => fail(word, held, w, failure),
    }
}
