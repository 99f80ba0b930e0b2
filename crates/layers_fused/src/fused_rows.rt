// The fused layers: no decoded row is held.
ghost use Rattle.std.specs.Prelude.{◌≡◌, ◌*◌, ◌%◌, ◌≤◌, length};
ghost use Rattle.refusals.specs.Said.{done};
ghost use Rattle.refusals.specs.Sizes.{most_in, most_out};
ghost use Rattle.memory.specs.Lists.{table};
ghost use Rattle.layers_shape.specs.Shapes.{shape, row_bytes, layer_refusal};
ghost use Rattle.layers_fused.specs.Says.{fused_dot_at, fused_layer_says};

use layers_shape::{Shape, layer_refusal};
use layouts::FormatK;
use refusals::Refusal;

// The outputs of one row of readings, a place for each row of weights.
#[tactic(auto, using(crate::proofs::RowDots::row_in))]
fn one_row(format: FormatK, x: &[f32], w: &[u8], y: &mut [f32]) -> Result<(), Refusal>
    requires { (length x.now ≤ most_in) × (length x.now % 256 ≡ 0) × (length y.old ≤ most_out)
        × (length y.old * row_bytes format (length x.now) ≤ length w.now) }
    ensures { (result ≡ done)
        × (y.new
        ≡ table (fused_dot_at format x.now w.now (length x.now))
        (length y.old)) }
{
    let n = x.len();
    let size = layers_shape::row_bytes(format, n);
    for o in 0..y.len() {
        let from = o * size;
        let to = from + size;
        let value = dots_fused::fused_dot(format, x, &w[from..to], n)?;
        y[o] = value;
    }
    Ok(())
}

// The outputs of every row of readings.
#[tactic(auto, using(crate::proofs::RowDots::rows_in))]
fn all_rows(format: FormatK, x: &[f32], w: &[u8], y: &mut [f32], s: Shape) -> Result<(), Refusal>
    requires { layer_refusal format s (length x.now) (length w.now) (length y.old) ≡ done }
    ensures { (result, y.new)
        ≡ fused_layer_says format s x.now w.now y.old }
{
    let n = s.in_feat;
    let outs = s.out_feat;
    for b in 0..s.batch {
        let from = b * n;
        let to = from + n;
        let at = b * outs;
        let end = at + outs;
        one_row(format, &x[from..to], w, &mut y[at..end])?;
    }
    Ok(())
}

fn fused_layer(format: FormatK, x: &[f32], w: &[u8], y: &mut [f32], s: Shape) -> Result<(), Refusal>
    ensures { (result, y.new)
        ≡ fused_layer_says format s x.now w.now y.old }
{
    layer_refusal(format, s, x.len(), w.len(), y.len())?;
    all_rows(format, x, w, y, s)
}

// Looks at the weights also where batch is 0, which the Rust does not.
pub fn linear_q4_k_fused(
    x: &[f32],
    w: &[u8],
    y: &mut [f32],
    batch: usize,
    in_feat: usize,
    out_feat: usize,
) -> Result<(), Refusal>
    ensures { (result, y.new)
        ≡ fused_layer_says FormatK.Q4K (shape batch in_feat out_feat) x.now w.now
        y.old }
{
    fused_layer(FormatK::Q4K, x, w, y, Shape::of(batch, in_feat, out_feat))
}

// The same in Q5_K.
pub fn linear_q5_k_fused(
    x: &[f32],
    w: &[u8],
    y: &mut [f32],
    batch: usize,
    in_feat: usize,
    out_feat: usize,
) -> Result<(), Refusal>
    ensures { (result, y.new)
        ≡ fused_layer_says FormatK.Q5K (shape batch in_feat out_feat) x.now w.now
        y.old }
{
    fused_layer(FormatK::Q5K, x, w, y, Shape::of(batch, in_feat, out_feat))
}

// The same in Q6_K.
pub fn linear_q6_k_fused(
    x: &[f32],
    w: &[u8],
    y: &mut [f32],
    batch: usize,
    in_feat: usize,
    out_feat: usize,
) -> Result<(), Refusal>
    ensures { (result, y.new)
        ≡ fused_layer_says FormatK.Q6K (shape batch in_feat out_feat) x.now w.now
        y.old }
{
    fused_layer(FormatK::Q6K, x, w, y, Shape::of(batch, in_feat, out_feat))
}
