// Prints words of document 01, built from their fields, and then every word of standard input, taken apart.

#![tactic(auto)]

mod built;
mod lines;
mod print;
mod shown;

use lines::Line;
use std::io::{self, BufWriter, Read, Write};

// How many bytes are read at a time.
const PIECE: usize = 65536;

fn main(rt: HostRuntime) -> io::Result<()> {
    let mut out = BufWriter::new(rt.alloc(), io::writer(&rt))?;
    built::print_all(&mut out)?;
    let mut line = Some(Line::default());
    let mut input = rt.reader();
    let mut piece = Vec::with_capacity(rt.alloc(), PIECE)?;
    // At most 4 GiB, so that the program ends.
    for _ in 0u64..65536 {
        let n = input.by_ref().take(PIECE as u64).read_to_end(&mut piece)?;
        if n == 0 {
            break;
        }
        line = lines::read(&mut out, line, piece.as_slice())?;
        piece.clear();
    }
    lines::finish(&mut out, line)?;
    out.flush()
}
