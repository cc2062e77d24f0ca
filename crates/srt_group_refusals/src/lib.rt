// 5 and 6, which the public calls of the group share, and what a public call promises.

#![tactic(auto)]

pub mod refusals; // refusals.rt: how a public call begins
