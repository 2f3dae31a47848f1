// What the functions for C hosts do with the bytes that they are lent, by the shape of the call; those that take a list are in `host_lists`. A host calls
// those of `chirpsteeple`.

#![tactic(auto)]

pub mod pages;
pub mod reads;
pub mod sweeps;
pub mod tables;
