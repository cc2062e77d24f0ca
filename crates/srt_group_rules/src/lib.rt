// Document 01's rules of a valid state (code 6), row by row of the lent tables: each row by itself, and the ids and sums of all.

#![tactic(auto)]

pub mod ids; // ids.rt: one id twice; the member with an id
pub mod ranges; // ranges.rt: a value whose sequence is too large or whose field is out of range
pub mod rows; // rows.rt: a row that breaks a rule by itself
pub mod sums; // sums.rt: what an event counts, and the account of a packet
