// What is kept from record to record, and what one record is answered with.
ghost use Rattle.std.specs.Prelude.{◌≡◌};
ghost use Rattle.fillin_answer.specs.Kept.{begun};

use fillin_lines::Line;
use stepped_shape::Layer;

// The latest layer, whose in_feat is 0 where there is none yet, and how many bytes its weights have; the next record's
// byte offset; and the windows answered and refused so far.
#[derive(Clone, Copy)]
pub struct State {
    pub layer: Layer,
    pub weight_bytes: usize,
    pub offset: u64,
    pub answered: u64,
    pub refused: u64,
}

// The state then, what the line says, and how many bytes of its buffer are its text.
#[derive(Clone, Copy)]
pub struct Reply {
    pub state: State,
    pub line: Line,
    pub length: usize,
}

// Before the first record.
pub fn start() -> State
    ensures { result ≡ begun }
{
    State {
        layer: Layer::of(4, 0, 0),
        weight_bytes: 0,
        offset: 0,
        answered: 0,
        refused: 0,
    }
}
