// The event poll: with its refusals, and for a group that is known to be valid, where it keeps the set of used cells up.

#![tactic(auto)]

pub mod polls; // polls.rt: `poll_event` for a valid state
pub mod calls; // calls.rt: `poll_event` with 5 and 6
