// What is asked of a page, each by its name.
ghost use Rattle.std.specs.Prelude.{◌≡◌};
ghost use Rattle.page.specs.Page.{page_of, tracked, strange, blocked, left, unstartable, gives53, gives54, sought};

use crate::{Clock, PageWords};
use records::Record;

// Every translation from before the stamp is gone.
pub fn is_tracked(stamp: u64, clock: Clock) -> bool
    ensures { result ≡ tracked stamp clock }
{
    (stamp != 0) & (stamp < clock.tlb)
}

pub fn is_strange(w: PageWords) -> bool
    ensures { result ≡ strange (page_of w) }
{
    states::is_strange(crate::state_of(w))
}

pub fn is_blocked(w: PageWords) -> bool
    ensures { result ≡ blocked (page_of w) }
{
    states::is_blocked(crate::state_of(w))
}

// A migration left it, and only RESTORE takes it back.
pub fn is_left(w: PageWords) -> bool
    ensures { result ≡ left (page_of w) }
{
    states::is_left(crate::state_of(w))
}

// A start refuses it.
fn is_unstartable(w: PageWords) -> bool
    ensures { result ≡ unstartable (page_of w) }
{
    !states::is_startable(crate::state_of(w))
}

// The destination's copy of it is old.
fn gives_53(w: PageWords) -> bool
    ensures { result ≡ gives53 (page_of w) }
{
    let n = crate::state_of(w);
    let p = Record::from(w.word);
    states::is_changed(n) | (states::is_sent(n) & p.dirty)
}

// It is memory of which the destination has no copy, or it is strange.
fn gives_54(w: PageWords) -> bool
    ensures { result ≡ gives54 (page_of w) }
{
    let n = crate::state_of(w);
    states::is_unsent(n) | states::is_strange(n)
}

// What a call looks for in the whole table. Data and no closure: definitions (`sought`, `stops_at`) name it.
#[derive(Clone, Copy)]
pub enum Sought {
    Blocked,
    Unstartable,
    Gives53,
    Gives54,
}

pub fn is_sought(k: Sought, w: PageWords) -> bool
    ensures { result ≡ sought k (page_of w) }
{
    match k {
        Sought::Blocked => is_blocked(w),
        Sought::Unstartable => is_unstartable(w),
        Sought::Gives53 => gives_53(w),
        Sought::Gives54 => gives_54(w),
    }
}
