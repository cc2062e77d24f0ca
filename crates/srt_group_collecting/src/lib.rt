// Collecting from the legs, in turn: a packet is held or discarded, an event waits to be given. From the Rust's srt_group/mod.rs.

#![tactic(auto)]

pub mod collecting; // collecting.rt: one event of the legs, and the two loops of visits
