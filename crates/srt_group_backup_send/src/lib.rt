// A Backup send as a whole. From the Rust's `send_backup` in srt_group/send.rs.

#![tactic(auto)]

pub mod sends; // sends.rt: one Backup send, with the take-over before it and the promotion after a failure
