// The removal of a member: its held packets become the group's, and what the group then holds beyond the largest receive window is
// retired. From the Rust's srt_group/mod.rs.

#![tactic(auto)]

pub mod queue; // queue.rt: the cells of a removed member's queue
pub mod retirement; // retirement.rt: `bound_group_owned_pending`
pub mod removal; // removal.rt: `remove_member_connection` once its member is found
pub mod connection; // connection.rt: `remove_member_connection` with its refusals 2 and 3
pub mod calls; // calls.rt: the calls with all their refusals, over the record's parts
