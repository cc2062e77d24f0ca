// The calls that change the members' states for C: the public calls, and their forms for a valid state, with the record as a row of words.

#![tactic(auto)]

pub mod states; // states.rt: `mark_member_broken`, `refresh_member_states`, `disconnect`
