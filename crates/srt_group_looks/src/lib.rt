// The calls that only look: each tests 5 and 6, and those that name a member or a time their codes, and shows. Nothing changes.

#![tactic(auto)]

pub mod looks; // looks.rt: what is shown of the group, at a time too
pub mod member; // member.rt: what is shown of one member
pub mod members; // members.rt: all members, as rows of a lent list
