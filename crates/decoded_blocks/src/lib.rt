// One block, decoded: its values as floats.
#![tactic(auto)]

mod k;
mod of32;

pub use k::decode_k;
pub use of32::{decode_32, decode_q8_0};
