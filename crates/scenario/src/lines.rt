// A line of standard input: a word of letters, and numbers behind it. Only what counts of it is kept, byte by byte, and not its text to be split: a line may be longer than memory.
use crate::numbers::Number;
use crate::orders::{NUMBERS, Order};
use std::alloc::{AllocError, Global};

// No word has more letters.
const LONGEST: usize = 8;

// What the last byte belongs to.
#[derive(Clone, Copy)]
enum Part {
    Blank,
    Word,
    Number(Number),
    // What does not count, whatever follows.
    Comment,
    // What is no word in its place or no number in its place, whatever follows.
    Unreadable,
}

// What has been read of a line.
#[derive(Drop)]
pub(crate) struct Line {
    part: Part,
    word: String,
    // The numbers that have ended, 0 where there is none, and how many there are; those behind the fifth do not count.
    numbers: [u64; NUMBERS],
    count: usize,
}

impl Line {
    // A line of which nothing has been read. It has room for any word, so that none of the lines that follow asks for memory.
    pub(crate) fn new(alloc: Global) -> Result<Line, AllocError> {
        Ok(Line {
            part: Part::Blank,
            word: String::with_capacity(alloc, LONGEST)?,
            numbers: [0; NUMBERS],
            count: 0,
        })
    }

    // Ends a number that is being read.
    fn end_number(&mut self) {
        if let Part::Number(number) = self.part
            && let Some(kept) = self.numbers.get_mut(self.count)
        {
            *kept = number.value();
            self.count += 1;
        }
    }

    // Reads one byte more of the line.
    pub(crate) fn read(&mut self, byte: u8) -> Result<(), AllocError> {
        self.part = match (self.part, byte) {
            (Part::Comment | Part::Unreadable, _) => return Ok(()),
            (_, b'#') => {
                self.end_number();
                Part::Comment
            }
            (_, b' ' | b'\t' | b'\r') => {
                self.end_number();
                Part::Blank
            }
            (Part::Number(number), _) => number.with(byte).map_or(Part::Unreadable, Part::Number),
            (Part::Blank, _) if !self.word.is_empty() => {
                Number::begun(byte).map_or(Part::Unreadable, Part::Number)
            }
            (_, b'a'..=b'z') if self.word.len() < LONGEST => {
                self.word.push(char::from(byte))?;
                Part::Word
            }
            _ => Part::Unreadable,
        };
        Ok(())
    }

    // What the line asks for, if that can be read: here it ends, and the next one begins.
    pub(crate) fn end(&mut self) -> Option<Order> {
        self.end_number();
        let order = match self.part {
            Part::Unreadable => None,
            _ => Order::of(self.word.as_str(), self.numbers),
        };
        self.part = Part::Blank;
        self.word.clear();
        self.numbers = [0; NUMBERS];
        self.count = 0;
        order
    }
}
