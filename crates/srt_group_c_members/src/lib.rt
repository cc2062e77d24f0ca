// A group's start and its members for C: the public calls, and their forms for a valid state, with the record as a row of words.

#![tactic(auto)]

pub mod start; // start.rt: `new`, and how a host that is the only writer begins
pub mod adding; // adding.rt: `add_member`
pub mod removing; // removing.rt: `remove_member`, `remove_member_connection`
