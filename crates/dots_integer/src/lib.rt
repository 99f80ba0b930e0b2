// The dots of packed weights and activation blocks: sums of weights times small integers, exact in whole numbers.
#![tactic(auto)]

mod dot;

pub use dot::{block_dot, dot_q4k_q8_block, dot_q5k_q8_block, dot_q6k_q8_block, first_dot};
