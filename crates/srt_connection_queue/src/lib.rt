// A member, its leg and its leg's queue of events as one row of words (document 01, "The stand-in leg").

#![tactic(auto)]

pub mod queue; // queue.rt: the queue of events in a row
pub mod rows; // rows.rt: a member and its leg as a row of words
