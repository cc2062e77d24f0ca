// Sends for C: the public calls, and the form for a valid state, with the record and the answer as rows of words.

#![tactic(auto)]

pub mod answers; // answers.rt: what a send answers, in words, and the record that it leaves
pub mod sends; // sends.rt: `send`, `send_shared`
