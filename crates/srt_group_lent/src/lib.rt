// Document 01's three calls over a record that is lent by reference. Each is thin: the record behind the reference goes by value to the flat
// form of the call (srt_group_flat), and the record that this gives back is put behind the reference. Each is outermost: code that makes
// a reference to a record is not covered. So each is exported, under a name that no other library has, for a program in Rust or C to call.

#![tactic(auto)]

pub mod polls; // polls.rt: `srt_group_lent_poll_data`
pub mod additions; // additions.rt: `srt_group_lent_add_member`
pub mod sends; // sends.rt: `srt_group_lent_send`
