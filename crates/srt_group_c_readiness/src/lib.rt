// The readiness tests for C: the public calls, and their forms for a valid state, with the record and the answer as rows of words.

#![tactic(auto)]

pub mod answers; // answers.rt: what a readiness test answers, in a word, and the record that it leaves
pub mod readiness; // readiness.rt: `can_send`, `can_send_with_pacing`
