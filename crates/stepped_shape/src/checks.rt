// Why a call whose layer's format is known says no, in document 01's order.
ghost use Rattle.std.specs.Prelude.{◌≡◌, ◌≤◌, length};
ghost use Rattle.refusals.specs.Said.{done};
ghost use Rattle.stepped_shape.specs.Layer.{open_count};
ghost use Rattle.stepped_shape.specs.Refusals.{
  shape_refusal,
  room_refusal,
  open_refusal,
  work_refusal,
  piece_refusal,
  close_refusal,
};

use crate::shape::{Layer, chunks_of, pieces_of, place_of};
use layers_shape::layer_short;
use layouts::FormatK;
use refusals::Refusal;

// The layer itself: a size, in_feat not a multiple of 256.
#[tactic(auto, unfolding(crate::specs::Refusals::shape_refusal, refusals::specs::Refusals::given))]
fn shape_refusal(l: Layer) -> Result<(), Refusal>
    ensures { result ≡ shape_refusal l }
{
    if l.in_feat > refusals::MOST_IN {
        return Err(Refusal::TooLarge);
    }
    if l.out_feat > refusals::MOST_OUT {
        return Err(Refusal::TooLarge);
    }
    if l.in_feat % 256 != 0 {
        return Err(Refusal::NotAMultiple);
    }
    Ok(())
}

// A slot and a mark for each piece.
#[tactic(auto, unfolding(crate::specs::Refusals::room_refusal, refusals::specs::Refusals::given))]
fn room_refusal(l: Layer, slots: usize, marks: usize) -> Result<(), Refusal>
    requires { shape_refusal l ≡ done }
    ensures { result ≡ room_refusal l slots marks }
{
    let n = pieces_of(l);
    if slots < n {
        return Err(Refusal::RoomShort);
    }
    if marks < n {
        return Err(Refusal::RoomShort);
    }
    Ok(())
}

// What open refuses.
#[tactic(auto, using(refusals::proofs::Laws::else_later, refusals::proofs::Laws::check_passed), unfolding(crate::specs::Refusals::open_refusal))]
pub fn open_refusal(l: Layer, slots: usize, marks: usize) -> Result<(), Refusal>
    ensures { result ≡ open_refusal l slots marks }
{
    shape_refusal(l)?;
    room_refusal(l, slots, marks)
}

// What run refuses, and piece before it looks at its own row and chunk.
#[tactic(auto, using(refusals::proofs::Laws::else_later, refusals::proofs::Laws::check_passed), unfolding(crate::specs::Refusals::work_refusal, refusals::specs::Refusals::given))]
pub fn work_refusal(
    format: FormatK,
    l: Layer,
    weights: usize,
    readings: usize,
    slots: usize,
    marks: usize,
) -> Result<(), Refusal>
    ensures { result ≡ work_refusal format l weights readings slots marks }
{
    shape_refusal(l)?;
    if weights < layers_shape::weight_bytes(format, l.in_feat, l.out_feat) {
        return Err(layer_short(format, l.in_feat, l.out_feat, weights));
    }
    if readings < l.in_feat {
        return Err(Refusal::ReadingsShort);
    }
    room_refusal(l, slots, marks)
}

// What piece refuses.
#[tactic(auto, using(refusals::proofs::Laws::else_later, refusals::proofs::Laws::check_passed, crate::proofs::Shapes::workable, crate::proofs::Shapes::place_within), unfolding(crate::specs::Refusals::piece_refusal, refusals::specs::Refusals::given))]
pub fn piece_refusal(
    format: FormatK,
    l: Layer,
    weights: usize,
    readings: usize,
    slots: usize,
    marks: &[u8],
    row: usize,
    chunk: usize,
) -> Result<(), Refusal>
    ensures { result ≡ piece_refusal format l weights readings slots marks.now row chunk }
{
    work_refusal(format, l, weights, readings, slots, marks.len())?;
    if row >= l.out_feat {
        return Err(Refusal::Outside);
    }
    if chunk >= chunks_of(l) {
        return Err(Refusal::Outside);
    }
    let at = place_of(l, row, chunk);
    if marks[at] != 0 {
        return Err(Refusal::AlreadyDone);
    }
    Ok(())
}

// How many of these marks are open, at most those of a whole layer: 16 chunks of 65,536 rows. The count is of 32 bits,
// of which a vector holds twice as many as of 64.
#[tactic(auto, using(crate::proofs::Marks::open_more), unfolding(crate::specs::Layer::open_count))]
pub fn count_open(marks: &[u8]) -> usize
    requires { length marks.now ≤ 1048576 }
    ensures { result ≡ open_count marks.now }
{
    let mut n: u32 = 0;
    for &mark in marks {
        if mark == 0 {
            n += 1;
        }
    }
    n as usize
}

// What close refuses.
#[tactic(auto, using(refusals::proofs::Laws::else_later, refusals::proofs::Laws::check_passed, crate::proofs::Shapes::openable, crate::proofs::Shapes::row_within, crate::proofs::Shapes::few_pieces, memory::proofs::Parts::lent_part), unfolding(crate::specs::Refusals::close_refusal, refusals::specs::Refusals::given, crate::specs::Layer::open_in_row))]
pub fn close_refusal(
    l: Layer,
    slots: usize,
    marks: &[u8],
    outputs: usize,
    row: usize,
) -> Result<(), Refusal>
    ensures { result ≡ close_refusal l slots marks.now outputs row }
{
    open_refusal(l, slots, marks.len())?;
    if outputs < l.out_feat {
        return Err(Refusal::RoomShort);
    }
    if row >= l.out_feat {
        return Err(Refusal::Outside);
    }
    let n = chunks_of(l);
    let at = row * n;
    let end = at + n;
    if count_open(&marks[at..end]) != 0 {
        return Err(Refusal::PieceOpen);
    }
    Ok(())
}
