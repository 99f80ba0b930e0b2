// The transcript of a whole input. This crate has definitions and theorems only: specs/ says what all lines are, and
// proofs/ that answering record by record, in whatever pieces the input comes, gives them.
#![tactic(auto)]
