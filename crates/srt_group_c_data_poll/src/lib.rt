// The data poll for C: the public calls, and the form for a valid state, with the record and the answer as rows of words.

#![tactic(auto)]

pub mod answers; // answers.rt: what a data poll answers, in words
pub mod data; // data.rt: `poll_data_bounded`, `poll_data`
