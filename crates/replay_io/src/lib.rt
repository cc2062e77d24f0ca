// The replay's reading and writing: a block at a time, and the last line. Inner code of the program `replay`.

#![tactic(auto)]

pub mod stopped; // stopped.rt: why a replay stops before the listing's end
pub mod turns; // turns.rt: a block, and the end of the listing
