// The record as a row of words, and the words of an answer, for calls that are lent both by pointer and length.

#![tactic(auto)]

pub mod record; // record.rt: the group that 20 words show, and its words
pub mod answers; // answers.rt: the numbers of an answer in a lent row
pub mod begin; // begin.rt: 5 and 6 of a call whose record is a row of words
