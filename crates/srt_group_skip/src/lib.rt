// The skip: when a missing packet is passed over for good. From the Rust's srt_group/mod.rs.

#![tactic(auto)]

pub mod skip; // skip.rt: `skip_given_up_gap`, and the packet at the base
