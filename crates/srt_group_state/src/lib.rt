// Whether the state that the record and the lent tables show breaks a rule of document 01 (code 6).

#![tactic(auto)]

pub mod cells; // cells.rt: the cells that a queue names
pub mod passes; // passes.rt: one pass over each table
pub mod validity; // validity.rt: every rule of code 6
