// The whole-number sums of the block dots: of weights times small integers, and of minimums times the sums of 32.
#![tactic(auto)]

mod whole;

pub use whole::{minimum_sum, products, sum_by_runs, sum_of_products};
