// The block decoders: packed blocks become floats.
#![tactic(auto)]

mod blocks;
mod q8_0;

pub use blocks::{
    decode_blocks, dequantize_iq4_nl, dequantize_q4_0, dequantize_q4_0_ggml, dequantize_q4_k,
    dequantize_q5_0, dequantize_q5_k, dequantize_q6_k, dequantize_q8_0,
};
