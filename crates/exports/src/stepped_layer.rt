// The stepped layer.
ghost use Rattle.std.specs.Prelude.{◌≡◌};
ghost use Rattle.stepped_shape.specs.Layer.{layer_of, memory};
ghost use Rattle.stepped_pieces.specs.Pieces.{piece_says};
ghost use Rattle.stepped_shape.specs.Progress.{ran};
ghost use Rattle.stepped.specs.Says.{open_says, run_says, close_says};
ghost use Rattle.c_answers.specs.Answers.{numbered, numbered_blocks, laid_out_beside};

use c_answers::{lay_out_counts, number_and_blocks, number_of};
use stepped_shape::Layer;

// `stepped::open`, for C.
#[unsafe(no_mangle)]
pub extern "C" fn jambharrow_open(
    format: u8,
    in_feat: usize,
    out_feat: usize,
    slots: &mut [f32],
    marks: &mut [u8],
) -> u32
    ensures { (result, memory slots.new marks.new)
        ≡ numbered (open_says (layer_of format in_feat out_feat)
        (memory slots.old marks.old)) }
{
    let layer = Layer::of(format, in_feat, out_feat);
    number_of(stepped::open(layer, slots, marks))
}

// `stepped_pieces::piece`, for C.
#[unsafe(no_mangle)]
pub extern "C" fn jambharrow_piece(
    format: u8,
    in_feat: usize,
    out_feat: usize,
    w: &[u8],
    x: &[f32],
    row: usize,
    chunk: usize,
    slots: &mut [f32],
    marks: &mut [u8],
    blocks: &mut [usize; 2],
) -> u32
    ensures { (result, (memory slots.new marks.new, blocks.new))
        ≡ numbered_blocks (piece_says (layer_of format in_feat out_feat) w.now x.now row chunk
        (memory slots.old marks.old)) blocks.old }
{
    let layer = Layer::of(format, in_feat, out_feat);
    number_and_blocks(
        stepped_pieces::piece(layer, w, x, row, chunk, slots, marks),
        blocks,
    )
}

// `stepped::run`, for C.
#[unsafe(no_mangle)]
pub extern "C" fn jambharrow_run(
    format: u8,
    in_feat: usize,
    out_feat: usize,
    w: &[u8],
    x: &[f32],
    budget: usize,
    slots: &mut [f32],
    marks: &mut [u8],
    done: &mut usize,
    left: &mut usize,
    blocks: &mut [usize; 2],
) -> u32
    ensures { (
      result,
      (
        ran done.new left.new,
        memory slots.new marks.new,
        blocks.new,
      ),
    )
        ≡ laid_out_beside
        (run_says (layer_of format in_feat out_feat) w.now x.now budget
        (memory slots.old marks.old))
        (ran done.old left.old) blocks.old }
{
    let layer = Layer::of(format, in_feat, out_feat);
    lay_out_counts(
        stepped::run(layer, w, x, budget, slots, marks),
        done,
        left,
        blocks,
    )
}

// `stepped::close`, for C.
#[unsafe(no_mangle)]
pub extern "C" fn jambharrow_close(
    format: u8,
    in_feat: usize,
    out_feat: usize,
    row: usize,
    slots: &[f32],
    marks: &[u8],
    y: &mut [f32],
) -> u32
    ensures { (result, y.new)
        ≡ numbered (close_says (layer_of format in_feat out_feat) row
        (memory slots.now marks.now) y.old) }
{
    let layer = Layer::of(format, in_feat, out_feat);
    number_of(stepped::close(layer, row, slots, marks, y))
}
