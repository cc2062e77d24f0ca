// The public calls that send, or ask whether a send could go. From the Rust's srt_group/send.rs.

#![tactic(auto)]

pub mod calls; // calls.rt: `send`, `send_shared`, `can_send`, `can_send_with_pacing`, with 5 and 6
