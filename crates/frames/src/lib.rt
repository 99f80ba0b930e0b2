// A record's frame: its length, its kind and its payload, and the next record of an input that comes in pieces.
#![tactic(auto)]

mod frame;

pub use frame::{Front, MOST_RECORD, frame_of, next_record, payload, rest, size_of};
