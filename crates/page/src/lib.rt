// One page, in its two words: what is asked of it, and what the calls make of it. Whoever holds the two words, in whatever form, can make a call's whole
// work on them.
//
// Nothing here takes a page apart into a struct of its own: the state's number is read off the record, and fields of the record's word are set.

#![tactic(auto)]

ghost use Rattle.std.specs.Prelude.{◌≡◌, true, false};
ghost use Rattle.records.specs.Record.{record_of};
ghost use Rattle.states.specs.States.{state_of, number_of};
ghost use Rattle.page.specs.Page.{page_of, number_read, strange};

use records::Record;

// What is asked of a page.
pub mod queries;
// What a call makes of one page.
pub mod moves;
// What a call makes of every page.
pub mod sweeps;

// Word 0 is the page's record, word 1 its mark.
#[derive(Clone, Copy, PartialEq, Eq)]
pub struct PageWords {
    pub word: u64,
    pub mark: u64,
}

// What decides whether a page's old translations are gone: the TLB epoch, with which a page is also stamped.
#[derive(Clone, Copy)]
pub struct Clock {
    pub tlb: u64,
}

// An unlisted number, so that it names no state. (No Option: the clause of `state_of`, by `number_read`, gives a strange record this number.)
const STRANGE: u8 = 255;

// The number of the page's state, which names none where a spare bit is set: so a strange record is in none of the states that are asked for.
pub fn state_of(w: PageWords) -> u8
    ensures value { result ≡ number_read (record_of w.word) }
    ensures result_value { state_of result ≡ (page_of w).state }
{
    let p = Record::from(w.word);
    let plain = records::is_plain(w.word);
    if plain { p.state } else { STRANGE }
}

// What is made of a page's two words: a strange record stays as it is, and `make` is told the number of any other state.
pub fn unless_strange<F: FnOnce(u8) -> PageWords>(w: PageWords, make: F) -> PageWords
    requires { F.IsAlwaysCallable make }
    ensures stays { strange (page_of w) ≡ true → result ≡ w }
    ensures made { strange (page_of w) ≡ false → F.post make (number_of (page_of w).state) result }
{
    let n = state_of(w);
    if states::is_strange(n) {
        return w;
    }
    make(n)
}
