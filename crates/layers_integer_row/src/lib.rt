// The outputs of an integer layer that does not refuse: each row of readings is quantised once, and its blocks serve
// every row of weights. There is no heap: a row's blocks are kept in a local array.
#![tactic(auto)]

mod rows;

pub use rows::rows_of;
