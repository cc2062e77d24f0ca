// The history theorem stands in specs/: no code.

#![tactic(auto)]
