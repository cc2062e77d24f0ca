// Sending over the lent table of members and the lent list of sends: Broadcast, and the readiness tests. From the Rust's
// srt_group/send.rs.

#![tactic(auto)]

pub mod flown; // flown.rt: what a part of a send leaves
pub mod list; // list.rt: a send is noted in the lent list
pub mod own; // own.rt: the call's own payload on one member
pub mod broadcast; // broadcast.rt: an attempt on every active leg
pub mod readiness; // readiness.rt: whether and when a send can go, and whether a leg fell silent
