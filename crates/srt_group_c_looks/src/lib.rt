// A call that only looks for C, with the record and the answer as rows of words, whatever it shows: `srt_group_c_looks_c` exports each under its
// name. Nothing but the answer's row changes.

#![tactic(auto)]

pub mod answers; // answers.rt: what a look answers, in words
pub mod look; // look.rt: a look in words, with what it shows
