// Piece: one chunk of one row, into its own slot.
ghost use Rattle.std.specs.Prelude.{◌≡◌, length};
ghost use Rattle.stepped_shape.specs.Layer.{memory};
ghost use Rattle.stepped_shape.specs.Inner.{LayerReady, PieceRoom, InLayer};
ghost use Rattle.stepped_pieces.specs.Pieces.{sum_at, worked, piece_says};

use layouts::FormatK;
use refusals::Refusal;
use stepped_shape::{Layer, piece_refusal, place_of};

// The sum of one chunk of one row.
fn chunk_sum(format: FormatK, l: Layer, w: &[u8], x: &[f32], row: usize, chunk: usize) -> f32
    requires { LayerReady format l (length w.now) (length x.now) × InLayer l row chunk }
    ensures { result ≡ sum_at format l w.now x.now row chunk }
{
    let size = layers_shape::row_bytes(format, l.in_feat);
    let from = row * size;
    let to = from + size;
    dots_fused_chunk::chunk_dot(format, x, &w[from..to], l.in_feat, chunk)
}

// Works one piece: its slot and its mark.
pub fn work_one(
    format: FormatK,
    l: Layer,
    w: &[u8],
    x: &[f32],
    row: usize,
    chunk: usize,
    slots: &mut [f32],
    marks: &mut [u8],
)
    requires { LayerReady format l (length w.now) (length x.now)
        × PieceRoom l (length slots.old) (length marks.old) × InLayer l row chunk }
    ensures { memory slots.new marks.new
        ≡ worked format l w.now x.now row chunk
        (memory slots.old marks.old) }
{
    let at = place_of(l, row, chunk);
    slots[at] = chunk_sum(format, l, w, x, row, chunk);
    marks[at] = 1;
}

// Works the piece of one row and chunk, whose mark is 0. Refuses 12, 6, 2, 3, 4, 5, 8 and 9, in this order.
pub fn piece(
    l: Layer,
    w: &[u8],
    x: &[f32],
    row: usize,
    chunk: usize,
    slots: &mut [f32],
    marks: &mut [u8],
) -> Result<(), Refusal>
    ensures { (result, memory slots.new marks.new)
        ≡ piece_says l w.now x.now row chunk
        (memory slots.old marks.old) }
{
    let format = FormatK::try_from(l.format)?;
    piece_refusal(format, l, w.len(), x.len(), slots.len(), marks, row, chunk)?;
    work_one(format, l, w, x, row, chunk, slots, marks);
    Ok(())
}
