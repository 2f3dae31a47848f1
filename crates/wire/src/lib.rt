// What the C side lends, as bytes: words little-endian, the table's pages in place, and the session in place, as 48 words.

#![tactic(auto)]

pub mod bytes;
pub mod sessions;
pub mod streams;
pub mod tables;
