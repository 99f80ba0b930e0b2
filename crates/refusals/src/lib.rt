// The refusals, and the sizes that a call takes.
#![tactic(auto)]

mod refusal;

pub use refusal::{Refusal, WEIGHTS_SHORT, blocks_short, passed_on};

// n and in_feat at most.
pub const MOST_IN: usize = 131_072;
// out_feat at most.
pub const MOST_OUT: usize = 65_536;
// batch at most.
pub const MOST_BATCH: usize = 1_024;
// Floats at most, where a quantizer or `canonical_chunk` is given them.
pub const MOST_FLOATS: usize = 131_072;
// Bytes at most, where a block decoder is given them.
pub const MOST_BYTES: usize = 16_777_216;
