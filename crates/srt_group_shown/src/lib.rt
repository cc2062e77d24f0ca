// The state that the group's record and the lent tables show: definitions and laws, no code. What a contract of the inner crates or
// of the public calls says, it says of this state. It stands apart from code 6, so that a change there proves neither receiving nor
// the polls again.

#![tactic(auto)]
