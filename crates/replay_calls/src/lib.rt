// The judges of stored answers, for all calls but the layers.
#![tactic(auto)]

mod activation_blocks;
mod binary16;
mod block_converters;
mod block_decoders;
mod block_quantizers;
mod blocks;
mod fixed_order_sums;
mod given_scales;
mod payloads;
mod row_dots;

pub use activation_blocks::judge_activation_block;
pub use binary16::judge_binary16;
pub use block_converters::judge_block_converter;
pub use block_decoders::judge_block_decoder;
pub use block_quantizers::judge_block_quantizer;
pub use fixed_order_sums::judge_fixed_order_sum;
pub use row_dots::judge_row_dot;
