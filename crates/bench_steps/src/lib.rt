// The steps that calls_bench times. A measuring crate: no product links it.

#![tactic(auto)]

pub mod steps; // steps.rt: one step of a run, by the public calls and by the forms for a valid state
