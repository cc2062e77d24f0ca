// The members of a group over the lent table: which are active, who is promoted, admission to the peer group, alignment of send
// sequences, and the refresh of the members' states. From the members' part of the Rust's srt_group/mod.rs.

#![tactic(auto)]

pub mod states; // states.rt: what state a member is in, and a member that turns to another
pub mod promotion; // promotion.rt: the Backup member that is promoted
pub mod admission; // admission.rt: admission to the peer group
pub mod alignment; // alignment.rt: a member's send sequence is aligned with the group's
pub mod refresh; // refresh.rt: the refresh of the members' states
pub mod quiet; // quiet.rt: whether a refresh would change nothing
pub mod collecting; // collecting.rt: whose queue is next
pub mod accounts; // accounts.rt: the account of the packets held for a member, or by the group itself
pub mod removal; // removal.rt: what a removal asks of the members that are left
