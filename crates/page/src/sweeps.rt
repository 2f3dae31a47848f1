// What track, start and pause make of every page, and RESTORE of one that it is told of. A strange one stays as it is.
ghost use Rattle.std.specs.Prelude.{◌≡◌, false, cond};
ghost use Rattle.states.specs.States.{State, number_of};
ghost use Rattle.page.specs.Page.{page_of, words_for, strange, on_words};
ghost use Rattle.page.specs.Sweeps.{uncached, refreshed, restored, swept_by};

use crate::PageWords;
use records::Record;

// No processor has its translation any more.
fn uncache(w: PageWords) -> PageWords
    ensures { strange (page_of w) ≡ false → result ≡ words_for (uncached (page_of w)) }
{
    let word = records::set_cached(w.word, false);
    PageWords { word, mark: w.mark }
}

fn kept_stamp(stamped: bool, stamp: u64) -> u64
    ensures { result ≡ cond stamped stamp 0 }
{
    if stamped { stamp } else { 0 }
}

// In a state, with no trace of an earlier migration. A page that is blocked outside a migration keeps its stamp, so that it can still be unblocked.
fn refresh(w: PageWords, to: u8) -> PageWords
    ensures { (s : State) → strange (page_of w) ≡ false → to ≡ number_of s → result ≡ words_for (refreshed (page_of w) s) }
{
    let p = Record::from(w.word);
    let stamp = kept_stamp(states::is_stamped(to), p.stamp);
    let moved = records::set_state(w.word, to);
    let stamped = records::set_stamp(moved, stamp);
    let word = records::set_migrated(stamped, 0);
    PageWords { word, mark: w.mark }
}

// A call on every page. Data and no closure: definitions and theorems over all calls (`swept_by`, `effect_of`) name it.
#[derive(Clone, Copy)]
pub enum Sweep {
    Track,
    Start,
    Pause,
}

fn swept(k: Sweep, w: PageWords, n: u8) -> PageWords
    ensures { strange (page_of w) ≡ false → n ≡ number_of (page_of w).state → result ≡ words_for (swept_by k (page_of w)) }
{
    match k {
        Sweep::Track => uncache(w),
        Sweep::Start => refresh(w, n),
        Sweep::Pause => uncache(w),
    }
}

// The page's two words once it is swept.
pub fn sweep_words(k: Sweep, w: PageWords) -> PageWords
    ensures { result ≡ on_words (swept_by k) w }
{
    crate::unless_strange(w, |n| swept(k, w, n))
}

// The page's two words once it is restored.
pub fn restore_words(w: PageWords) -> PageWords
    ensures { result ≡ on_words restored w }
{
    crate::unless_strange(w, |n| refresh(w, states::restore_of(n)))
}
