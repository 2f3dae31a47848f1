// A list, whichever call takes it: what is asked of it and of its info word, its entries in turn, and the info word as it comes back.

#![tactic(auto)]

ghost use Rattle.std.specs.Prelude.{◌≡◌};
ghost use Rattle.words.specs.Info.{info_word, with_first};
ghost use Rattle.refusals.specs.Refusals.{first_of, code_of};
ghost use Rattle.lists.specs.Kinds.{taken_by};
ghost use Rattle.lists.specs.List.{list_tests, is_over, info_back};

use entry::{Ground, Taken};
use page::PageWords;
use refusals::Refusal;
use session::streams;
use words::infos::Info;

// The run over the entries.
pub mod runs;

// The calls that take a list: each has its own step for one entry, and they share all else. Data and no closure: the definition `taken_by` names it, and what
// holds of all calls is said over it.
#[derive(Clone, Copy)]
pub enum Kind {
    Export,
    Restore,
}

// What the step makes, on the call's ground, of an entry's word, its buffer's word and the words of the page that it names.
pub fn take(kind: Kind, g: Ground, word: u64, held: u64, w: PageWords) -> Taken
    ensures { result ≡ taken_by kind g word held w }
{
    match kind {
        Kind::Export => entry::take_entry(word, w, g), // what the buffer holds is written and not read
        Kind::Restore => restoring::take_entry(word, held, w, g),
    }
}

// The tests of a list's length and of its info word; which of them comes first cannot be seen.
pub fn allow_list(entries: usize, x: Info) -> Result<(), Refusal>
    ensures { code_of result ≡ first_of (list_tests entries x) }
{
    if !((1 <= entries) & (entries <= streams::MOST_ENTRIES)) {
        return Err(Refusal::OperandInvalid);
    }
    if x.format != 0 {
        return Err(Refusal::OperandInvalid);
    }
    if x.zero52 != 0 {
        return Err(Refusal::OperandInvalid); // bits 54:52
    }
    if entries as u64 <= x.last {
        return Err(Refusal::OperandInvalid);
    }
    Ok(())
}

// All entries are done.
pub fn is_over(x: Info, next: u64) -> bool
    ensures { result ≡ is_over x next }
{
    x.last < next
}

// The info word with another FIRST.
fn info_from(x: Info, first: u64) -> u64
    ensures { result ≡ info_word (with_first x first) }
{
    u64::from(Info { first, ..x })
}

// FIRST counts to 511 and then from 0 again.
const PLACES: u64 = streams::LAST_ENTRY + 1;

// The info word as it comes back: it tells where the operation goes on.
pub fn info_back(x: Info, next: u64) -> u64
    ensures { result ≡ info_back x next }
{
    if is_over(x, next) {
        return info_from(x, (x.last % PLACES + 1) % PLACES);
    }
    info_from(x, next)
}
