// Document 01's bench card, and whether the compiled code answers its rows as they say.
#![tactic(auto)]

mod rows;
mod table;

pub use rows::{holds, row_holds};
pub use table::Row;
