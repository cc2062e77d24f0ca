// Sending for a valid state: `send` in both modes, and the readiness tests. From the Rust's srt_group/send.rs.

#![tactic(auto)]

pub mod sending; // sending.rt: refresh, limit, the send of the mode, and the payload in its cell
pub mod readiness; // readiness.rt: `can_send` and `can_send_with_pacing`
pub mod valid; // valid.rt: both for a valid state
