// The polls: the refresh of the members' states, the event poll and the data poll. From the Rust's srt_group/mod.rs.

#![tactic(auto)]

pub mod polls; // polls.rt: `poll_event` and `poll_data_bounded`
pub mod refresh; // refresh.rt: admission, settling and requalifying of members
pub mod straight; // straight.rt: a packet at the base that need not be held
