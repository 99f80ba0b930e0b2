// The fused dots: the chunks of a row of packed weights, met in the tree.
#![tactic(auto)]

mod dot;

pub use dot::{canonical_dot_q4k_fused, canonical_dot_q5k_fused, fused_dot, q6k_fused_f32_dot};
