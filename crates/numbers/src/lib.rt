// The steps between floats and whole numbers, and the fields of packed bytes.
#![tactic(auto)]

mod fields;
mod steps;

pub use fields::{bits_at, le_u16, le_u32, signed_byte, u16_at, u32_at, unsigned_byte};
pub use steps::{magnitude_of, whole_to_f32};
