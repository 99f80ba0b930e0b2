// The `_cpu` layers: a row of packed weights is decoded once, and serves every row of readings.
#![tactic(auto)]

mod cpu;

pub use cpu::{
    linear_iq4_nl_cpu, linear_q4_0_cpu, linear_q4_0_ggml_cpu, linear_q4_k_cpu, linear_q6_k_cpu,
};
