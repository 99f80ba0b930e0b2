// What the judges of stored answers share: what stands in a payload, and what comes of a record.
#![tactic(auto)]

mod findings;
mod payload;

pub use findings::{Finding, same_answer, same_bits, says};
pub use payload::{STOOD, byte_at, read_floats, same_bytes, same_floats, u32_at};
