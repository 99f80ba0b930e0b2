// Activation blocks: up to 256 readings as small integers with one float scale, the sums of their 32s and their count.
#![tactic(auto)]

mod block;

pub use block::{Q8Block, count_serves, quantize_block_q8, quantized_block, sums_right};
