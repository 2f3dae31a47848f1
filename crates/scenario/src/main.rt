// Plays scenarios: reads calls, and what the host does to session and words between them, and prints what each call leaves.

#![tactic(auto)]

mod bench;
mod lines;
mod numbers;
mod orders;
mod show;
mod spaces;

use bench::Bench;
use lines::Line;
use std::io::{self, BufReader, BufWriter, Read, Write};

// Does what standard input asks for, line by line; the last one may lack its end.
fn main(rt: HostRuntime) -> io::Result<()> {
    let mut bench = Bench::new(rt.alloc())?;
    let mut line = Line::new(rt.alloc())?;
    // At most 4 GiB, so that the program ends.
    let input = BufReader::new(rt.alloc(), rt.reader())?.take(4_294_967_296);
    let mut out = BufWriter::new(rt.alloc(), io::writer(&rt))?;
    for byte in input.bytes() {
        match byte? {
            b'\n' => bench.obey(&mut out, line.end())?,
            byte => line.read(byte)?,
        }
    }
    bench.obey(&mut out, line.end())?;
    out.flush()
}
