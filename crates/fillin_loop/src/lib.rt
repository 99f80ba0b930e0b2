// The work of the program `fillin`: records come in by a reader, and lines of text leave by a writer.
#![tactic(auto)]

mod answering;
mod come;
mod ending;
mod input;
mod progress;

pub use answering::fill_in;
pub use ending::Ending;
pub use input::{Desk, standard};
