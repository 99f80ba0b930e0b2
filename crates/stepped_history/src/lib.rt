// Demand 3 of the stepped layer. This crate has definitions and theorems only: specs/ says what a history of calls is,
// and proofs/ that each closed row has the bits of its dot in one go, and that the calls of a history are the code's.
#![tactic(auto)]
