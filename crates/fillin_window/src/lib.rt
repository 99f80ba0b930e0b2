// A window's outputs: the fused float dot of each row, through the stepped layer.
#![tactic(auto)]

mod outputs;

pub use outputs::window_outputs;
