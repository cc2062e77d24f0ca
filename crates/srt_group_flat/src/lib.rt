// The flat forms of the calls that are also lent their record by reference: the same call by value, its answer in words.

#![tactic(auto)]

pub mod words; // words.rt: the words of a data poll's answer and of a send's
pub mod flat; // flat.rt: `poll_data`, `add_member` and `send`
