// Binary16 both ways, and a binary32 and its bits.
#![tactic(auto)]

mod binary16;
mod bits;
mod how;

pub use binary16::{f16_to_f32, f32_to_f16};
pub use bits::{bits_of, of_bits};
pub use how::{How, Narrowed};
