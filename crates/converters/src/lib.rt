// The converters between the two orders of Q4_0: each block's nibbles move to the places of the other order, and its
// scale stays as it is.
#![tactic(auto)]

mod block;
mod blocks;
mod direction;

pub use blocks::{q4_0_from_ggml, q4_0_to_ggml};
pub use direction::Direction;
