// A packed block times its readings: each term goes to its lane, and no decoded value is stored, but for a block that
// counts with its first places alone.
#![tactic(auto)]

mod block;
mod runs;
mod sub_blocks;

pub use block::{add_block, add_short};
