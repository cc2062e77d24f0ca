// The give-up test and delivery: the base passes the whole run, and what the run covers is released. From the Rust's
// srt_group/mod.rs.

#![tactic(auto)]

pub mod delivery; // delivery.rt: the give-up test, a packet or a waiting event given, the base set and moved
