// A layer that is opened, run to its end and closed, for the readings of one window.
ghost use Rattle.std.specs.Prelude.{◌≡◌, ◌*◌, ◌≤◌, ◌++◌, length, drop};
ghost use Rattle.refusals.specs.Said.{done};
ghost use Rattle.memory.specs.Lists.{filled};
ghost use Rattle.stepped_shape.specs.Layer.{memory};
ghost use Rattle.stepped_pieces.specs.Pieces.{row_met};
ghost use Rattle.fillin_window.specs.Windows.{Sound, readings_of, outputs_of};
ghost use Rattle.fillin_window.specs.Inner.{Run};

use refusals::Refusal;
use stepped_shape::Layer;

// A slot and a mark for each row: a layer record has at most 16 rows, of one chunk each.
const MOST_PIECES: usize = 16;

// Closes every row of a layer that has no open piece.
fn close_rows(l: Layer, slots: &[f32], marks: &[u8], y: &mut [f32]) -> Result<(), Refusal>
    requires { Run l (memory slots.now marks.now) × (l.out_feat ≤ length y.old) }
    ensures result_value { result ≡ done }
    ensures y_after { y.new ≡ filled (row_met l slots.now) y.old l.out_feat }
{
    let rows = l.out_feat;
    for row in 0..rows {
        stepped::close(l, row, slots, marks, y)?;
    }
    Ok(())
}

// The outputs of a layer for these readings: it is opened, worked to its end and closed. The first piece is worked by
// itself: with two callers the dot of a chunk stays a function of its own, in which it takes half the time that it
// takes within its only caller. A layer that has no piece refuses it, and then run has none to do.
fn fill_outputs(l: Layer, w: &[u8], x: &[f32], y: &mut [f32]) -> Result<(), Refusal>
    requires { Sound l (length w.now) × (length x.now ≡ l.in_feat) × (l.out_feat ≤ length y.old) }
    ensures result_value { result ≡ done }
    ensures y_after { y.new
        ≡ outputs_of l w.now x.now ++ drop l.out_feat y.old }
{
    let mut slots = [0.0f32; MOST_PIECES];
    let mut marks = [0u8; MOST_PIECES];
    stepped::open(l, &mut slots, &mut marks)?;
    let _ = stepped_pieces::piece(l, w, x, 0, 0, &mut slots, &mut marks);
    stepped::run(l, w, x, MOST_PIECES, &mut slots, &mut marks)?;
    close_rows(l, &slots, &marks, y)
}

// Room for a window's readings.
fn readings_room() -> [f32; records::MOST_LAYER_IN]
    ensures { 2048 ≡ length result }
{
    [0.0f32; records::MOST_LAYER_IN]
}

// The outputs of a layer for a window, of the bytes that have its readings.
pub fn window_outputs(l: Layer, w: &[u8], bytes: &[u8], y: &mut [f32]) -> Result<(), Refusal>
    requires { Sound l (length w.now) × (length bytes.now ≡ l.in_feat * 4)
        × (l.out_feat ≤ length y.old) }
    ensures result_value { result ≡ done }
    ensures y_after { y.new
        ≡ outputs_of l w.now (readings_of bytes.now l) ++ drop l.out_feat y.old }
{
    let inputs = l.in_feat;
    let mut x = readings_room();
    records::readings(bytes, &mut x[..inputs]);
    fill_outputs(l, w, &x[..inputs], y)
}
