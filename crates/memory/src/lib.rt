// What lent memory holds. This crate has definitions and laws only: specs/ says what a table, a filled front and a part
// are, and proofs/ what a loop that fills memory leaves.
#![tactic(auto)]
