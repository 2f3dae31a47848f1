// The guest and memory calls on one page: what each asks of the page, and what it makes of it.
ghost use Rattle.std.specs.Prelude.{◌≡◌, false, not, [], ◌∷◌, eqb};
ghost use Rattle.words.specs.Codes as codes;
ghost use Rattle.refusals.specs.Refusals.{◌gives◌, first_of, code_of};
ghost use Rattle.states.specs.States.{State, number_of, number_by, goes_by};
ghost use Rattle.page.specs.Page.{page_of, words_for, strange, on_words};
ghost use Rattle.page.specs.Moves.{changes_of, is_block, is_write, writable, move_tests, stored, emptied, restamped, moved_by};

use crate::{Clock, PageWords, queries};
use records::Record;
use refusals::Refusal;

// A call on one page, with what it brings. Data and no closure: definitions and theorems over all calls (`move_tests`, `moved_by`, `effect_of`) name it.
#[derive(Clone, Copy)]
pub enum Move {
    Write { mark: u64 },
    Add,
    Accept,
    Block,
    Unblock,
    Remove,
}

// The number of the state to which the call takes a page; the page's own where the call has no move for it.
fn goal(m: Move, n: u8) -> u8
    ensures { result ≡ number_by (changes_of m) n }
{
    match m {
        Move::Write { mark: _ } => n,
        Move::Add => states::add_of(n),
        Move::Accept => states::accept_of(n),
        Move::Block => states::block_of(n),
        Move::Unblock => states::unblock_of(n),
        Move::Remove => states::remove_of(n),
    }
}

// In Blackout a block has a code of its own.
pub fn is_block(m: Move) -> bool
    ensures { result ≡ is_block m }
{
    matches!(m, Move::Block)
}

// While Idle a page that a migration left takes no other call.
pub fn is_write(m: Move) -> bool
    ensures { result ≡ is_write m }
{
    matches!(m, Move::Write { mark: _ })
}

// ---- what a call asks of its page

// A processor that has the translation (Cached) writes to a blocked page too.
fn is_writable(w: PageWords) -> bool
    ensures { result ≡ writable (page_of w) }
{
    let n = crate::state_of(w);
    let p = Record::from(w.word);
    states::is_writable(n) | (states::is_landing(n) & p.cached)
}

// 45 where the state has no such move.
fn allow_enter(able: bool) -> Result<(), Refusal>
    ensures { code_of result ≡ first_of (not able gives codes.ept_entry_state_incorrect ∷ []) }
{
    if !able {
        return Err(Refusal::EptEntryStateIncorrect);
    }
    Ok(())
}

// 46 where the page is not blocked, then 47 while old translations of it may be about.
fn allow_leave(able: bool, tracked: bool) -> Result<(), Refusal>
    ensures { code_of result ≡ first_of (not able gives codes.gpa_range_not_blocked ∷ not tracked gives codes.tlb_tracking_not_done ∷ []) }
{
    if !able {
        return Err(Refusal::GpaRangeNotBlocked);
    }
    if !tracked {
        return Err(Refusal::TlbTrackingNotDone);
    }
    Ok(())
}

// The first of its tests that holds.
pub fn allow_move(m: Move, w: PageWords, clock: Clock) -> Result<(), Refusal>
    ensures { code_of result ≡ first_of (move_tests m (page_of w) clock) }
{
    let n = crate::state_of(w);
    let p = Record::from(w.word);
    let able = goal(m, n) != n;
    let tracked = queries::is_tracked(p.stamp, clock);
    let writable = is_writable(w);
    match m {
        Move::Write { mark: _ } => allow_enter(writable),
        Move::Add => allow_enter(able),
        Move::Accept => allow_enter(able),
        Move::Block => allow_enter(able),
        Move::Unblock => allow_leave(able, tracked),
        Move::Remove => allow_leave(able, tracked),
    }
}

// ---- what it makes of a page that is not strange

fn store(w: PageWords, mark: u64) -> PageWords
    ensures { strange (page_of w) ≡ false → result ≡ words_for (stored (page_of w) mark) }
{
    let p = Record::from(w.word);
    let writable = states::is_writable(crate::state_of(w));
    let seen = records::set_dirty(w.word, p.dirty | (writable & !p.cached));
    let word = records::set_cached(seen, true);
    PageWords { word, mark }
}

// In another state, with nothing in it.
fn empty(w: PageWords, to: u8) -> PageWords
    ensures { (s : State) → strange (page_of w) ≡ false → to ≡ number_of s → result ≡ words_for (emptied (page_of w) s) }
{
    let p = Record::from(w.word);
    let word = u64::from(Record {
        state: to,
        dirty: false,
        cached: false,
        spare10: 0,
        stamp: 0,
        migrated: p.migrated, // stays, so that one epoch never holds both a CANCEL and a MIGRATE of the page
        spare48: 0,
    });
    PageWords { word, mark: 0 }
}

// In another state, with another stamp.
fn restamp(w: PageWords, to: u8, stamp: u64) -> PageWords
    ensures { (s : State) → strange (page_of w) ≡ false → to ≡ number_of s → result ≡ words_for (restamped (page_of w) s stamp) }
{
    let moved = records::set_state(w.word, to);
    let word = records::set_stamp(moved, stamp);
    PageWords { word, mark: w.mark }
}

fn moved(m: Move, w: PageWords, to: u8, clock: Clock) -> PageWords
    ensures { strange (page_of w) ≡ false → to ≡ number_of (goes_by (changes_of m) (page_of w).state) → result ≡ words_for (moved_by m clock (page_of w)) }
{
    match m {
        Move::Write { mark } => store(w, mark),
        Move::Add => empty(w, to),
        Move::Accept => empty(w, to),
        Move::Block => restamp(w, to, clock.tlb),
        Move::Unblock => restamp(w, to, 0),
        Move::Remove => empty(w, to),
    }
}

// The page's two words once the call is done.
pub fn move_words(m: Move, w: PageWords, clock: Clock) -> PageWords
    ensures { result ≡ on_words (moved_by m clock) w }
{
    crate::unless_strange(w, |n| moved(m, w, goal(m, n), clock))
}
