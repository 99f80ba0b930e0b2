// The integer dot of a row: its readings quantised a block at a time, and the dots of its blocks met in the tree.
#![tactic(auto)]

mod row;

pub use row::{integer_dot_q4k, integer_dot_q5k};
