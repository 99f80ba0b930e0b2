// One piece of the stepped layer: one chunk of one row, whose sum goes into its slot; and a row's slots, met.
#![tactic(auto)]

mod pieces;
mod rows;

pub use pieces::{piece, work_one};
pub use rows::meet;
