// The order inside a sub-block or run does not matter for the integer dots. This crate has definitions and theorems
// only: specs/ says what a rearrangement is, what it moves and what the law is, and proofs/ that the calls keep it.
#![tactic(auto)]
