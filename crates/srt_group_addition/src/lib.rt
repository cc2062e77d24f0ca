// `add_member` of the Rust's srt_group/mod.rs: a leg that is handed over in a lent row joins the group.

#![tactic(auto)]

pub mod addition; // addition.rt: the member behind the others, admitted and aligned if its leg is connected
pub mod handed; // handed.rt: `add_member` after 5 and 6 of the group's own state, and for a valid state
pub mod calls; // calls.rt: `add_member` with its refusals
