// The record reader: what stands at the front of a record file, or why it is refused.
#![tactic(auto)]

mod layers;
mod reader;
mod windows;

pub use layers::{MOST_LAYER_IN, MOST_LAYER_OUT, MOST_WEIGHTS, weights};
pub use reader::{Item, read};
pub use windows::{readings, readings_of};
