// The shape of a stepped layer: its pieces, where their slots and marks lie, what each of the four calls asks for once
// its format is known, in document 01's order, and what run answers.
#![tactic(auto)]

mod checks;
mod progress;
mod shape;

pub use checks::{close_refusal, count_open, open_refusal, piece_refusal, work_refusal};
pub use progress::Progress;
pub use shape::{Layer, chunks_of, pieces_of, place_of};
