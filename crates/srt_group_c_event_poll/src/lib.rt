// The event poll for C: the public call, and the form for a valid state, with the record and the answer as rows of words.

#![tactic(auto)]

pub mod answers; // answers.rt: what an event poll answers, in words
pub mod events; // events.rt: `poll_event`
