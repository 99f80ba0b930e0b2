// From readings to small integers: the largest magnitude of a block, the inverse of its scale, and the two rules that
// round. They run for every reading, so they choose between values and never jump: a compiler keeps such a loop in
// vector registers.
#![tactic(auto)]

mod ends;
mod magnitudes;
mod quants;

pub use magnitudes::{largest_magnitude, largest_value, scale_q8};
pub use quants::{inverse_of, round_q4_0, round_q8};
