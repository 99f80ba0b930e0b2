// The outputs of a layer that does not refuse, a row of readings at a time.
ghost use Rattle.std.specs.Prelude.{◌≡◌, ◌*◌, ◌/◌, ◌≤◌, length};
ghost use Rattle.refusals.specs.Said.{done};
ghost use Rattle.refusals.specs.Sizes.{most_out};
ghost use Rattle.memory.specs.Lists.{table};
ghost use Rattle.layouts.specs.Formats.{bytes_k};
ghost use Rattle.layers_shape.specs.Shapes.{layer_refusal};
ghost use Rattle.dots_kept_row.specs.Inner.{KeptRow};
ghost use Rattle.layers_integer_row.specs.Inner.{kept_row_dot};
ghost use Rattle.layers_integer_row.specs.Outputs.{integer_outputs};

use dots_kept_row::{KeptBlock, Meeting, keep_row, kept_row_dot};
use layers_shape::Shape;
use layouts::{Format, FormatK};

// The outputs of the row of readings kept, a place for each row of weights.
#[tactic(auto, using(crate::proofs::Outputs::few_bytes, crate::proofs::Outputs::weighs))]
fn one_row(
    format: FormatK,
    meeting: Meeting,
    w: &[u8],
    kept: &[KeptBlock],
    dots: &mut [f32],
    y: &mut [f32],
)
    requires { (length dots.old ≤ 512) × (length y.old ≤ most_out)
        × (length y.old * (length dots.old * bytes_k format) ≤ length w.now)
        × KeptRow (length dots.old) kept.now }
    ensures { y.new
        ≡ table (kept_row_dot format meeting w.now kept.now (length dots.old)) (length y.old) }
{
    let size = dots.len() * layouts::block_bytes(Format::OfK(format));
    for o in 0..y.len() {
        let from = o * size;
        let to = from + size;
        y[o] = kept_row_dot(format, meeting, &w[from..to], kept, dots);
    }
}

// The outputs of every row of readings: each row is kept once.
#[tactic(auto, using(crate::proofs::Outputs::reads, crate::proofs::Outputs::writes))]
fn all_rows(
    format: FormatK,
    meeting: Meeting,
    x: &[f32],
    w: &[u8],
    s: Shape,
    kept: &mut [KeptBlock],
    dots: &mut [f32],
    y: &mut [f32],
)
    requires { (layer_refusal format s (length x.now) (length w.now) (length y.old) ≡ done)
        × (length dots.old ≡ s.in_feat / 256) × (s.in_feat / 256 ≤ length kept.old) }
    ensures { y.new
        ≡ integer_outputs format meeting s x.now w.now y.old }
{
    let n = s.in_feat;
    let outs = s.out_feat;
    for b in 0..s.batch {
        let from = b * n;
        let to = from + n;
        keep_row(&x[from..to], kept);
        let at = b * outs;
        let end = at + outs;
        one_row(format, meeting, w, kept, dots, &mut y[at..end]);
    }
}

// Rows of at most BLOCKS blocks, which are kept in room for so many.
pub fn rows_of<const BLOCKS: usize>(
    format: FormatK,
    meeting: Meeting,
    x: &[f32],
    w: &[u8],
    y: &mut [f32],
    s: Shape,
)
    requires { (layer_refusal format s (length x.now) (length w.now) (length y.old) ≡ done)
        × (s.in_feat / 256 ≤ BLOCKS) × (BLOCKS ≤ 512) }
    ensures { y.new
        ≡ integer_outputs format meeting s x.now w.now y.old }
{
    let mut kept = [KeptBlock {
        d: 0.0,
        qs: [0; 256],
        bsums: [0; 8],
    }; BLOCKS];
    let mut dots = [0.0f32; BLOCKS];
    let room = &mut dots[..];
    let blocks = s.in_feat / 256;
    all_rows(format, meeting, x, w, s, &mut kept, &mut room[..blocks], y);
}
