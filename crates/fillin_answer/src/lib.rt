// What `fillin` answers to one record: the text of its line in a lent buffer, and what is kept for the next record.
#![tactic(auto)]

mod answers;
mod state;

pub use answers::answer;
pub use state::{Reply, State, start};
