// One look at a page, for both scans: whether it is listed, and then what becomes of it.
ghost use Rattle.std.specs.Prelude.{◌≡◌, false};
ghost use Rattle.states.specs.States.{number_of, goes_by};
ghost use Rattle.states.specs.Lists.{looks};
ghost use Rattle.page.specs.Page.{page_of, strange, words_for, on_words};
ghost use Rattle.scan.specs.Look.{listed, listed_word, listed_page};

use page::{Clock, PageWords};
use records::Record;
use words::entries::Entry;
use words::operations;

// The page is to be exported, or exported again.
pub fn is_listed(w: PageWords) -> bool
    ensures { result ≡ listed (page_of w) }
{
    let n = page::state_of(w);
    let p = Record::from(w.word);
    states::is_listed(n) | (states::is_sent(n) & p.dirty)
}

// Its word in the list.
pub fn listed_word(w: PageWords, number: usize) -> u64
    ensures { result ≡ listed_word (page_of w).state number }
{
    let n = page::state_of(w);
    let pending = states::is_pending(n);
    let hint = states::hint_of(n);
    u64::from(Entry {
        level: 0,
        pending,
        state: hint,
        reserved5: 0,
        l2_map: 0,
        mig_type: 0,
        gpa: number as u64,
        operation: operations::MIGRATE,
        reserved54: 0,
        status: 0,
        reserved61: 0,
    })
}

// The page's own words, if it is not strange.
fn list(w: PageWords, to: u8, clock: Clock) -> PageWords
    ensures { strange (page_of w) ≡ false → to ≡ number_of (goes_by looks (page_of w).state) → result ≡ words_for (listed_page clock (page_of w)) }
{
    let moved = records::set_state(w.word, to); // what was sent is not the page's any more
    if states::is_renewed(to) {
        let clean = records::set_dirty(moved, false);
        let word = records::set_stamp(clean, clock.tlb);
        return PageWords { word, mark: w.mark };
    }
    PageWords {
        word: moved,
        mark: w.mark,
    }
}

// What becomes of the page's own words; a strange record stays.
pub fn listed_words(w: PageWords, clock: Clock) -> PageWords
    ensures { result ≡ on_words (listed_page clock) w }
{
    page::unless_strange(w, |n| list(w, states::look_of(n), clock))
}
