// The lines of a replay listing over the group, in rows of numbers: inner code of the replay program, so its function has a `requires`.

#![tactic(auto)]

pub mod rows; // rows.rt: all rows
