// The table that the caller lends, two words a page, as pages: each can be read, written and looked for, and all of them moved. Every page number
// is taken: past the end there are zeros, and nothing is written there.

#![tactic(auto)]

ghost use Rattle.std.specs.Prelude.{◌≡◌, ℕ, List, length, get_or, set};
ghost use Rattle.page.specs.Page.{on_words, sought};
ghost use Rattle.page.specs.Sweeps.{swept_by};
ghost use Rattle.table.specs.Table.{legal, page_count, words_at, put_at, sweep_of, first_page, some};

use page::queries::Sought;
use page::sweeps::Sweep;
use page::{PageWords, queries, sweeps};

// The largest guest.
pub const MOST_PAGES: usize = 4096;

// A length that a table can have.
pub fn is_legal(len: usize) -> bool
    ensures { result ≡ legal len }
{
    (len % 2 == 0) & (len != 0) & (len <= 2 * MOST_PAGES)
}

pub fn load(table: &[u64], at: usize) -> PageWords
    ensures { result ≡ words_at table.now at }
{
    if at < table.len() / 2 {
        return PageWords {
            word: table[2 * at],
            mark: table[2 * at + 1],
        };
    }
    PageWords { word: 0, mark: 0 }
}

pub fn store(table: &mut [u64], at: usize, w: PageWords)
    ensures { table.new ≡ put_at table.old at w }
{
    if at < table.len() / 2 {
        table[2 * at] = w.word;
        table[2 * at + 1] = w.mark;
    }
}

// How a table is lent, and a list: as what units, which words those are, and how a page or a word is read and written among them. Past the end there are
// zeros, and nothing is written there.
pub trait Form {
    type Unit;

    ghost words: { List Self.Unit → List ℕ };

    fn pages(table: &[Self::Unit]) -> usize
        ensures { result ≡ page_count (words table.now) };

    fn load(table: &[Self::Unit], at: usize) -> PageWords
        ensures { result ≡ words_at (words table.now) at };

    fn store(table: &mut [Self::Unit], at: usize, w: PageWords)
        ensures { words table.new ≡ put_at (words table.old) at w };

    // How many words a list has.
    fn len(list: &[Self::Unit]) -> usize
        ensures { result ≡ length (words list.now) };

    fn word(list: &[Self::Unit], at: usize) -> u64
        ensures { result ≡ get_or (words list.now) at 0 };

    fn put(list: &mut [Self::Unit], at: usize, x: u64)
        ensures { words list.new ≡ set (words list.old) at x };
}

// Lent as words.
pub enum InWords {}

impl Form for InWords {
    type Unit = u64;

    ghost words = { λ t. t };

    fn pages(table: &[u64]) -> usize {
        table.len() / 2
    }

    fn load(table: &[u64], at: usize) -> PageWords {
        load(table, at)
    }

    fn store(table: &mut [u64], at: usize, w: PageWords) {
        store(table, at, w);
    }

    fn len(list: &[u64]) -> usize {
        list.len()
    }

    fn word(list: &[u64], at: usize) -> u64 {
        list.get(at).copied().unwrap_or(0)
    }

    fn put(list: &mut [u64], at: usize, x: u64) {
        if at < list.len() {
            list[at] = x;
        }
    }
}

// Every page moved.
pub fn sweep_all<T: Form>(table: &mut [T::Unit], k: Sweep)
    ensures { T.words table.new ≡ sweep_of (on_words (swept_by k)) (T.words table.old) }
{
    for i in 0..T::pages(table) {
        let before = T::load(table, i);
        let after = sweeps::sweep_words(k, before);
        T::store(table, i, after);
    }
}

// The lowest page of a kind.
pub fn find<T: Form>(table: &[T::Unit], k: Sought) -> Option<usize>
    ensures { result ≡ first_page (sought k) (T.words table.now) }
{
    (0..T::pages(table)).find(|i| queries::is_sought(k, T::load(table, *i)))
}

// There is a page of the kind.
pub fn has<T: Form>(table: &[T::Unit], k: Sought) -> bool
    ensures { result ≡ some (sought k) (T.words table.now) }
{
    find::<T>(table, k).is_some()
}
