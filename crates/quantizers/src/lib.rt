// The block quantizers: 32 readings become a scale and 32 small integers.
#![tactic(auto)]

mod block;
mod blocks;
mod lost;
mod target;

pub use blocks::{quantize_iq4_nl, quantize_q4_0, quantize_q4_0_ggml, quantize_q8_0};
pub use lost::Lost;
pub use target::Target;
