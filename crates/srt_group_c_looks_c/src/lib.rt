// The calls that only look, exported for C: each is `look` of `srt_group_c_looks` with what it shows.

#![tactic(auto)]

pub mod looks; // looks.rt: what is shown of the group, at a time too
pub mod members; // members.rt: what is shown of one member, and of all
