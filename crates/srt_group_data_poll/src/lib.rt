// The data poll: with its refusals, and for a group that is known to be valid, where it keeps the set of used cells up.

#![tactic(auto)]

pub mod polls; // polls.rt: `poll_data_bounded` for a valid state
pub mod only_writer; // only_writer.rt: a caller that tests nothing again
pub mod calls; // calls.rt: `poll_data_bounded` with 5 and 6
