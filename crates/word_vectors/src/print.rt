// Lists of names for a line, each with what stands beside it.
use std::fmt;

// A number beside each name.
#[derive(Clone, Copy)]
pub(crate) struct Numbers<'a>(pub &'a [(&'a str, u64)]);

impl fmt::Display for Numbers<'_> {
    fn fmt<W: fmt::Write>(&self, f: &mut fmt::Formatter<W>) -> fmt::Result {
        for (name, n) in self.0 {
            write!(f, " {name} {n}")?;
        }
        Ok(())
    }
}

// A word beside each name.
#[derive(Clone, Copy)]
pub(crate) struct Words<'a>(pub &'a [(&'a str, u64)]);

impl fmt::Display for Words<'_> {
    fn fmt<W: fmt::Write>(&self, f: &mut fmt::Formatter<W>) -> fmt::Result {
        for (name, w) in self.0 {
            write!(f, " {name} {w:016x}")?;
        }
        Ok(())
    }
}
