// The whole numbers of a packed block of a K format.
#![tactic(auto)]

mod k;

pub use k::{quants_q4k, quants_q5k, quants_q6k};
