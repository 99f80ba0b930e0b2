// The sum of a row: its chunks' sums, met in the tree. Everything is added in one order, so that a result has one set
// of bits.
#![tactic(auto)]

mod chunks;
mod dot;
mod sum;

pub use chunks::{CHUNK, MOST_CHUNKS, chunk_end, chunks_in, meet_chunks};
pub use dot::canonical_dot_pub;
pub use sum::canonical_sum_pub;
