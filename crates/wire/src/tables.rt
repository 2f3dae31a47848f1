// The table's bytes as pages: each is read, written and looked for in place, and all of them moved. A page's sixteen bytes are read and written, and
// no others. Past the end there are zeros, and nothing is written there.
ghost use Rattle.std.specs.Prelude.{◌≡◌, ◌%◌, length};
ghost use Rattle.page.specs.Page.{on_words};
ghost use Rattle.page.specs.Sweeps.{swept_by};
ghost use Rattle.table.specs.Table.{words_at, sweep_of};
ghost use Rattle.wire.specs.Bytes.{words_of, bytes_of};
ghost use Rattle.wire.specs.Tables.{put_page};

use crate::bytes;
use page::PageWords;
use page::sweeps::Sweep;
use table::Form;

pub fn load(b: &[u8], at: usize) -> PageWords
    ensures { result ≡ words_at (words_of b.now) at }
{
    if at < b.len() / 16 {
        return PageWords {
            word: bytes::word_at(b, 16 * at),
            mark: bytes::word_at(b, 16 * at + 8),
        };
    }
    PageWords { word: 0, mark: 0 }
}

pub fn store(b: &mut [u8], at: usize, w: PageWords)
    ensures { b.new ≡ put_page b.old at w }
{
    if at < b.len() / 16 {
        bytes::put_word(b, 16 * at, w.word);
        bytes::put_word(b, 16 * at + 8, w.mark);
    }
}

// The table lent as bytes, and a list.
pub enum InBytes {}

impl Form for InBytes {
    type Unit = u8;

    ghost words = { words_of };

    fn pages(table: &[u8]) -> usize {
        table.len() / 16
    }

    fn load(table: &[u8], at: usize) -> PageWords {
        load(table, at)
    }

    fn store(table: &mut [u8], at: usize, w: PageWords) {
        store(table, at, w);
    }

    fn len(list: &[u8]) -> usize {
        list.len() / 8
    }

    // The list is of bytes: `get` would find one of them, and not a word.
    fn word(list: &[u8], at: usize) -> u64 {
        if at < Self::len(list) {
            bytes::number(list, at)
        } else {
            0
        }
    }

    fn put(list: &mut [u8], at: usize, x: u64) {
        if at < Self::len(list) {
            bytes::put_word(list, 8 * at, x);
        }
    }
}

// Every page moved.
pub fn sweep_all(b: &mut [u8], k: Sweep)
    requires { length b.old % 8 ≡ 0 }
    ensures { b.new ≡ bytes_of (sweep_of (on_words (swept_by k)) (words_of b.old)) }
{
    table::sweep_all::<InBytes>(b, k);
}
