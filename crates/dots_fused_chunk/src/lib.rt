// The fused dot of one chunk: packed weights are decoded and multiplied a block at a time, so that no decoded row is
// held.
#![tactic(auto)]

mod chunk;

pub use chunk::chunk_dot;
