// The stand-in leg's calls for C: the public calls, and their forms for a valid state, with the record as a row of words.

#![tactic(auto)]

pub mod data; // data.rt: `queue_data`
pub mod legs; // legs.rt: `queue_event`, `read_leg`
