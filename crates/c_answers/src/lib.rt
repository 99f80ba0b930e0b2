// How an answer is handed to C: its number is returned, and its value, its counts or its block go through pointers.
#![tactic(auto)]

mod answers;
mod blocks;
mod counts;
mod lost;

pub use answers::{lay_out, lay_out_and_blocks, number_and_blocks, number_of};
pub use blocks::lay_out_block;
pub use counts::lay_out_counts;
pub use lost::{number_and_lost, number_of_how};
