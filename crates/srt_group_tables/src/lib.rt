// The tables of a group, in place of the Rust's `BTreeMap`, `BTreeSet` and `VecDeque`.

#![tactic(auto)]

pub mod history; // history.rt: what the Backup carrier sent and its peer has not acknowledged
pub mod pending; // pending.rt: complete payloads waiting behind a sequence gap
pub mod waiting; // waiting.rt: lifecycle events not given out yet
