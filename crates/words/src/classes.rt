// The class of a Secure EPT state number (000, tables 1.7 and 1.8). How it is found is this module's own affair.
ghost use Rattle.std.specs.Prelude.{◌≡◌, Some};
ghost use Rattle.words.specs.Class.{class_of, class_name};

use std::fmt;

#[derive(Clone, Copy, Debug, PartialEq, Eq)]
pub enum Class {
    Free,
    NonLeaf,
    Leaf,
    Unlisted,
}

impl fmt::Display for Class {
    ghost output = { λ k. Some (class_name k) };

    fn fmt<W: fmt::Write>(&self, f: &mut fmt::Formatter<W>) -> fmt::Result {
        f.write_str(match self {
            Class::Free => "free",
            Class::NonLeaf => "non-leaf",
            Class::Leaf => "leaf",
            Class::Unlisted => "unlisted",
        })
    }
}

pub fn class_of(s: u8) -> Class
    ensures { result ≡ class_of s }
{
    // A table with two bits for each number, 32 numbers to a row, the lowest number in the lowest bits. The compiler makes one load of this match: a
    // `const` array would be built at each call.
    let row: u64 = match s / 32 {
        0 => 0xa82a_feba_feba_c2a8,
        1 => 0xffff_ffff_ffff_ffea,
        2 => 0xffff_ffff_ffff_fef8,
        3 => 0xffff_ffff_ffff_fffa,
        4 => 0xffff_ffff_ffff_fdf7,
        5 => 0xffff_ffff_ffff_ffff,
        6 => 0xffff_ffff_ffff_fdf7,
        _ => 0xffff_ffff_ffff_ffff,
    };
    match (row >> (2 * (s % 32))) % 4 {
        0 => Class::Free,
        1 => Class::NonLeaf,
        2 => Class::Leaf,
        _ => Class::Unlisted,
    }
}
