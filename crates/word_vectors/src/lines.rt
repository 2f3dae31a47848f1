// Standard input, a line at a time: a word in hexadecimal digits, or two, the second to take fields from.
use crate::shown;
use std::io::{self, Write};

// A line as far as it has been read, where its words can be: the last of them may go on, or a blank has ended it.
#[derive(Clone, Copy, Debug, Default, PartialEq, Eq)]
pub(crate) enum Line {
    #[default]
    Empty,
    InFirst(u64),
    First(u64),
    InSecond(u64, u64),
    Second(u64, u64),
}

// A word with one more digit, if that fits 64 bits.
fn with_digit(w: u64, d: u64) -> Option<u64> {
    w.checked_mul(16)?.checked_add(d)
}

impl Line {
    fn ended(self) -> Line {
        match self {
            Line::InFirst(w) => Line::First(w),
            Line::InSecond(w, v) => Line::Second(w, v),
            ended => ended,
        }
    }

    // None: the byte belongs to no word, or to one that is too long or one too many.
    fn with_byte(self, b: u8) -> Option<Line> {
        if matches!(b, b' ' | b'\t' | b'\r') {
            return Some(self.ended());
        }
        let d = u64::from(char::from(b).to_digit(16)?);
        match self {
            Line::Empty => Some(Line::InFirst(d)),
            Line::InFirst(w) => Some(Line::InFirst(with_digit(w, d)?)),
            Line::First(w) => Some(Line::InSecond(w, d)),
            Line::InSecond(w, v) => Some(Line::InSecond(w, with_digit(v, d)?)),
            Line::Second(_, _) => None,
        }
    }
}

// The end of a line.
pub(crate) fn finish(out: &mut impl Write, line: Option<Line>) -> io::Result<()> {
    match line {
        None => writeln!(out, "unreadable"),
        Some(Line::Empty) => Ok(()),
        Some(Line::InFirst(w) | Line::First(w)) => shown::apart(out, w),
        Some(Line::InSecond(w, v) | Line::Second(w, v)) => {
            shown::apart(out, w)?;
            shown::each_from(out, w, v)
        }
    }
}

// Prints the lines that end in a piece of the input, and gives back the one that does not.
pub(crate) fn read(
    out: &mut impl Write,
    mut line: Option<Line>,
    piece: &[u8],
) -> io::Result<Option<Line>> {
    for b in piece {
        if *b == b'\n' {
            finish(out, line)?;
            line = Some(Line::default());
        } else {
            line = line.and_then(|l| l.with_byte(*b));
        }
    }
    Ok(line)
}
