// Pieces of text as bytes in a lent buffer: a word, a whole number in digits and a float in hexadecimal.
#![tactic(auto)]

mod text;

pub use text::{put, put_field, put_output};
