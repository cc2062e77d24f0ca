// What the stand-in does to a leg: its calls with their refusals, and their forms for a group that is known to be valid, which are lent
// the set of used cells.

#![tactic(auto)]

pub mod queueing; // queueing.rt: `queue_data` for a valid state
pub mod events; // events.rt: `queue_event` after 5 and 6, and for a valid state
pub mod readings; // readings.rt: `read_leg` after 5 and 6, and for a valid state
pub mod calls; // calls.rt: the three calls with 5 and 6
