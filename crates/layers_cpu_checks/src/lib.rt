// The checks of the `_cpu` layers, which take their readings, weights and outputs at the exact length alone.
#![tactic(auto)]

mod checks;

pub use checks::cpu_refusal;
