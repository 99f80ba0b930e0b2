// Two laws of the fixed-order dot. This crate has definitions and theorems only: specs/ says what the laws are, and
// proofs/ that the dots and the fused layers keep them.
#![tactic(auto)]
