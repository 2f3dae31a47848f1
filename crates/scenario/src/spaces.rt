// A space of words, the first of which are lent to calls.
use std::alloc::{AllocError, Global};
use std::io::{self, Write};

// What half a word can hold.
const HALF: u64 = 0x1_0000_0000;

// The largest prime below it.
const PRIME: u64 = 4_294_967_291;

#[derive(Drop)]
pub(crate) struct Space {
    words: Vec<u64>,
    // How many words are lent, if there are so many.
    lent: usize,
}

impl Space {
    // A space of zeros, of which none is lent.
    pub(crate) fn new(alloc: Global, len: usize) -> Result<Space, AllocError> {
        Ok(Space {
            words: vec![in alloc; 0; len]?,
            lent: 0,
        })
    }

    pub(crate) fn lend(&mut self, count: usize) {
        self.lent = count;
    }

    // The words that are lent.
    pub(crate) fn lent(&mut self) -> &mut [u64] {
        let count = self.lent.min(self.words.len());
        &mut self.words[..count]
    }

    // Puts a word into the space; what would lie behind its end goes nowhere.
    pub(crate) fn put(&mut self, at: usize, word: u64) {
        if let Some(old) = self.words.get_mut(at) {
            *old = word;
        }
    }

    // Prints a line of the words from `from` on and before `to`.
    pub(crate) fn show(&self, out: &mut impl Write, from: usize, to: usize) -> io::Result<()> {
        for (i, word) in self.words.iter().take(to).skip(from).enumerate() {
            if i > 0 {
                write!(out, " ")?;
            }
            write!(out, "{word:016x}")?;
        }
        writeln!(out)
    }

    // One number for all the words, so that a change anywhere shows.
    pub(crate) fn digest(&self) -> u64 {
        self.words
            .iter()
            .fold(0, |d, w| (d * 65_599 + w % HALF * 31 + w / HALF) % PRIME)
    }
}
