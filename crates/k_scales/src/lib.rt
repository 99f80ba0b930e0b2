// The scales and the minimums of a packed block of a K format.
#![tactic(auto)]

mod k;

pub use k::{minimum_q4k, scale_q4k, scales_and_minimums, scales_q6k};
