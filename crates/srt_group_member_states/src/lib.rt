// The calls that change the members' states: a member marked broken, the states refreshed, every leg disconnected. Each with its refusals,
// and in its form for a group that is known to be valid.

#![tactic(auto)]

pub mod broken; // broken.rt: `mark_member_broken` after 5 and 6, and for a valid state
pub mod forms; // forms.rt: `refresh_member_states` and `disconnect` for a valid state
pub mod calls; // calls.rt: the three calls with 5 and 6
