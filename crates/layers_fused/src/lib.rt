// The fused layers: every row of readings against every row of packed weights, and no decoded row is held.
#![tactic(auto)]

mod fused_rows;

pub use fused_rows::{linear_q4_k_fused, linear_q5_k_fused, linear_q6_k_fused};
