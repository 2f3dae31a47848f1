// The list words of the bench, promised once and for all: what stands above this crate reads and writes structs, and sees no bit of an entry or an info. (Word
// 0 of a page's record is the crate `records`, by the same laws.)
//
// A state number is a byte. Every other field that is no flag is a u64, so that nobody above casts it before comparing it with a session's number.

#![tactic(auto)]

// A run of bits, read and put: what the words' own functions have in common.
pub mod bits;

// The class of a Secure EPT state number.
pub mod classes;
// A GPA list entry.
pub mod entries;
// The word that tells which entries of a list are meant.
pub mod infos;

// The numbers that have names.
pub mod hints;
pub mod operations;
pub mod states;
pub mod statuses;
