// The integer layers.
#![tactic(auto)]

mod layers;

pub use layers::{
    linear_q4_k_integer, linear_q4_k_integer_rs, linear_q5_k_integer, linear_q5_k_integer_rs,
    linear_q6_k_integer, linear_q6_k_integer_rs,
};
