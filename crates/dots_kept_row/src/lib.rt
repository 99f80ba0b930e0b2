// A row of readings that is quantised once and kept, its dot with a row of packed weights, and how the dots of its
// blocks meet. There is no heap: a row's blocks are kept in an array that the caller lends.
#![tactic(auto)]

mod kept;
mod meeting;

pub use kept::{KeptBlock, keep_row, kept_row_dot};
pub use meeting::Meeting;
