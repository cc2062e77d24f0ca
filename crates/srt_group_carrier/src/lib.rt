// The carrier of a Backup group and its history: who carries, the take-over, what a carrier has sent, with the cells that the history
// takes and frees, and who is tried after it failed. From the Backup part of the Rust's srt_group/send.rs.

#![tactic(auto)]

pub mod freeing; // freeing.rt: the cells of entries that leave the history are free again
pub mod recording; // recording.rt: a payload that was sent joins the history in its cell
pub mod carrier; // carrier.rt: demotion, promotion, and the take-over with its cells
pub mod promotion; // promotion.rt: after a failed send another member is promoted and tried
