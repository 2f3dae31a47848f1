// Lists and scans on the bytes that the C side lends. Each entry and each look is the engine's own step, on the bytes of its page and of its words where they
// lie; and the bytes that a run leaves are those of what the engine's run leaves on the words that they are.

#![tactic(auto)]

pub mod runs;
pub mod scans;
