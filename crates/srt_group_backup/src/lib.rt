// Sending in Backup over the lent tables: a carrier that fell silent, the history that its peer has not acknowledged, and the
// take-over with its replay. From the Backup part of the Rust's srt_group/send.rs.

#![tactic(auto)]

pub mod stale; // stale.rt: a carrier that fell silent turns Unstable
pub mod trimming; // trimming.rt: the history without what the carrier's peer acknowledged
pub mod replay; // replay.rt: the history is replayed on a leg
pub mod takeover; // takeover.rt: a member takes over the carrier's flight
pub mod send; // send.rt: the call's own payload on one member, and what is recorded of it
