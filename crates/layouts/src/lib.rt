// The formats of packed blocks: the bytes and values of each, and the whole numbers of those with 32 values to a block.
// What a block of any format means is defined here.
#![tactic(auto)]

mod counts;
mod format;
mod of32;

pub use counts::{blocks_in, weights_short};
pub use format::{Format, Format32, FormatK, block_bytes, block_values};
pub use of32::{less, quants_q4_0, quants_q4_0_ggml, quants_q5_0, quants_q8_0, values_iq4_nl};
