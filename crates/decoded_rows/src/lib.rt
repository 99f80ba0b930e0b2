// A row of packed weights becomes floats, wherever in a block it starts and ends.
#![tactic(auto)]

mod row;

pub use row::decode_row;
