// Which way a converter goes.

// From the order that pairs neighbours to GGML's, or back.
#[derive(Clone, Copy)]
pub enum Direction {
    ToGgml,
    FromGgml,
}
