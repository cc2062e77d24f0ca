// The blocks of a replay listing: what the replay program does between reading and writing. Its functions have a `requires`: what the program lends.

#![tactic(auto)]

pub mod blocks; // blocks.rt: a block, and the last line
