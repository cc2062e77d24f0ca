// The parts of srt-protocol that a bonded group stands on, module by module as the Rust has them.

#![tactic(auto)]

pub mod error; // error.rt: the numbered refusals
pub mod received_payload; // received_payload.rt: payloads in the cells of a lent store
pub mod srt_handshake; // srt_handshake.rt: the mark of a group id
pub mod srt_packet; // srt_packet.rt: the circular order of sequence numbers
pub mod time; // time.rt: moments in microseconds
