// What run answers.

// How many pieces it did, and how many stay open.
#[derive(Clone, Copy)]
pub struct Progress {
    pub done: usize,
    pub left: usize,
}
