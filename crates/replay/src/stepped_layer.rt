// The stepped layer, by histories of calls. A payload is the format, in four bytes as the counts behind it, in_feat,
// out_feat, how many packed bytes and pieces there are, the readings, the bytes, the row and the chunk of each piece in
// the order of the calls, and the dot of each row, which is the Rust's in one go. What the pieces leave open is done by
// runs of one piece, and then every row is closed.
use replay_answers::{Finding, STOOD, byte_at, read_floats, same_floats, says, u32_at};
use stepped_shape::{Layer, Progress};

// The readings at most: a block more than a chunk has.
const MOST: usize = 8_448;
// The pieces, and the rows, at most.
const PIECES: usize = 16;
// What stands in each mark before the open.
const MARKED: u8 = 0xEE;

// Whether each piece that is named is accepted.
fn pieces_accepted(
    l: Layer,
    w: &[u8],
    x: &[f32],
    named: &[u8],
    slots: &mut [f32],
    marks: &mut [u8],
) -> bool {
    for k in 0..named.len() / 8 {
        let row = u32_at(named, 8 * k) as usize;
        let chunk = u32_at(named, 8 * k + 4) as usize;
        if !says(stepped_pieces::piece(l, w, x, row, chunk, slots, marks), 0) {
            return false;
        }
    }
    true
}

// Whether runs of one piece do the rest, the last of them leaving none open.
fn rest_run(l: Layer, w: &[u8], x: &[f32], slots: &mut [f32], marks: &mut [u8]) -> bool {
    for _ in 0..PIECES {
        let progress = stepped::run(l, w, x, 1, slots, marks);
        let Ok(Progress { done, left }) = progress else {
            return false;
        };
        if left == 0 {
            return true;
        }
        if done != 1 {
            return false;
        }
    }
    false
}

// Whether each row closes.
fn rows_close(l: Layer, slots: &[f32], marks: &[u8], y: &mut [f32]) -> bool {
    for row in 0..y.len() {
        if !says(stepped::close(l, row, slots, marks, y), 0) {
            return false;
        }
    }
    true
}

// Whether no call of the history is refused: an open, the pieces that are named, runs of the rest, and a close of each
// row.
fn plays(l: Layer, w: &[u8], x: &[f32], named: &[u8], y: &mut [f32]) -> bool {
    let mut slots = [STOOD; PIECES];
    let mut marks = [MARKED; PIECES];
    if !says(stepped::open(l, &mut slots, &mut marks), 0) {
        return false;
    }
    if !pieces_accepted(l, w, x, named, &mut slots, &mut marks) {
        return false;
    }
    if !rest_run(l, w, x, &mut slots, &mut marks) {
        return false;
    }
    rows_close(l, &slots, &marks, y)
}

// Whether the history leaves the rows' dots, `wanted`, on readings whose bits stand in `bytes`, read into x.
fn judge_calls(
    l: Layer,
    bytes: &[u8],
    x: &mut [f32],
    w: &[u8],
    named: &[u8],
    y: &mut [f32],
    wanted: &[u8],
) -> Finding {
    read_floats(bytes, x);
    Finding::of_same(plays(l, w, x, named, y) && same_floats(wanted, y))
}

// A stored history of the stepped layer: what its calls say, and the outputs that they leave.
pub fn judge_history(payload: &[u8]) -> Finding {
    let format = byte_at(payload, 0);
    let in_feat = u32_at(payload, 4) as usize;
    let out_feat = u32_at(payload, 8) as usize;
    let bytes = u32_at(payload, 12) as usize;
    let pieces = u32_at(payload, 16) as usize;
    if in_feat > MOST {
        return Finding::Malformed;
    }
    if out_feat > PIECES {
        return Finding::Malformed;
    }
    if pieces > PIECES {
        return Finding::Malformed;
    }
    let w_at = 20 + 4 * in_feat;
    let named = w_at + bytes;
    let dots = named + 8 * pieces;
    if payload.len() != dots + 4 * out_feat {
        return Finding::Malformed;
    }
    let mut x = [0.0f32; MOST];
    let mut y = [STOOD; PIECES];
    judge_calls(
        Layer {
            format,
            in_feat,
            out_feat,
        },
        &payload[20..w_at],
        &mut x[..in_feat],
        &payload[w_at..named],
        &payload[named..dots],
        &mut y[..out_feat],
        &payload[dots..],
    )
}
