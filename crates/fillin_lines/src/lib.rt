// The lines that `fillin` writes, as bytes of text in a lent buffer.
#![tactic(auto)]

mod lines;
mod whole;

pub use lines::{Line, is_last, write_line};
pub use whole::MOST_LINE;
