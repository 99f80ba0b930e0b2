// The sum of one chunk: eight lanes, which then meet in the tree.
#![tactic(auto)]

mod lanes;

pub use lanes::{add_products, canonical_chunk, chunk_dot, chunk_total};
