// The `_cpu` layers: a row of weights is decoded into scratch once, and serves every row of readings.
ghost use Rattle.std.specs.Prelude.{◌≡◌, ◌*◌, ◌≤◌, ◌<◌, length};
ghost use Rattle.refusals.specs.Said.{done};
ghost use Rattle.refusals.specs.Sizes.{most_in, most_out, most_batch};
ghost use Rattle.sums_lanes.specs.Lanes.{products};
ghost use Rattle.sums.specs.Rows.{row_sum};
ghost use Rattle.layers_shape.specs.Shapes.{shape, reading_row};
ghost use Rattle.layers_cpu_checks.specs.Refusals.{cpu_refusal};
ghost use Rattle.layers_cpu.specs.Says.{cpu_says};
ghost use Rattle.layers_cpu.specs.Columns.{column};

use decoded_rows::decode_row;
use layers_cpu_checks::cpu_refusal;
use layers_shape::Shape;
use layouts::{Format, Format32, FormatK};
use refusals::Refusal;

// Place o of every row of the output: the dot of each row of readings and one row of weights, decoded.
#[tactic(auto, using(crate::proofs::Columns::rows_in))]
fn fill_column(x: &[f32], row: &[f32], y: &mut [f32], s: Shape, o: usize) -> Result<(), Refusal>
    requires batch_le_most_batch { (s.batch ≤ most_batch) × (s.in_feat ≤ most_in) × (s.out_feat ≤ most_out) × (o < s.out_feat) }
    requires in_feat_in_bounds { (s.batch * s.in_feat ≤ length x.now) × (length row.now ≡ s.in_feat)
        × (s.batch * s.out_feat ≤ length y.old) }
    ensures { (result ≡ done)
        × (y.new
        ≡ column (λ b. row_sum (products (reading_row x.now s b) row.now) s.in_feat)
        s.out_feat o y.old s.batch) }
{
    let n = s.in_feat;
    let outs = s.out_feat;
    for b in 0..s.batch {
        let from = b * n;
        let to = from + n;
        let value = sums::canonical_dot_pub(&x[from..to], row, n)?;
        y[b * outs + o] = value;
    }
    Ok(())
}

// Every output, a row of weights at a time.
fn all_columns(
    format: Format,
    x: &[f32],
    w: &[u8],
    y: &mut [f32],
    scratch: &mut [f32],
    s: Shape,
) -> Result<(), Refusal>
    requires { cpu_refusal format s (length x.now) (length w.now) (length y.old) (length scratch.old)
        ≡ done }
    ensures { (result, (y.new, scratch.new))
        ≡ cpu_says format s x.now w.now y.old scratch.old }
{
    let n = s.in_feat;
    if s.batch == 0 {
        return Ok(());
    }
    for o in 0..s.out_feat {
        decode_row(format, w, o * n, &mut scratch[..n]);
        fill_column(x, &scratch[..n], y, s, o)?;
    }
    Ok(())
}

fn cpu_layer(
    format: Format,
    x: &[f32],
    w: &[u8],
    y: &mut [f32],
    scratch: &mut [f32],
    s: Shape,
) -> Result<(), Refusal>
    ensures { (result, (y.new, scratch.new))
        ≡ cpu_says format s x.now w.now y.old scratch.old }
{
    cpu_refusal(format, s, x.len(), w.len(), y.len(), scratch.len())?;
    all_columns(format, x, w, y, scratch, s)
}

// Scratch has room for in_feat floats, and afterwards holds the last row decoded, or is untouched where batch or
// out_feat is 0.
pub fn linear_q4_k_cpu(
    x: &[f32],
    w: &[u8],
    y: &mut [f32],
    scratch: &mut [f32],
    batch: usize,
    in_feat: usize,
    out_feat: usize,
) -> Result<(), Refusal>
    ensures { (result, (y.new, scratch.new))
        ≡ cpu_says (Format.OfK FormatK.Q4K) (shape batch in_feat out_feat) x.now w.now
        y.old scratch.old }
{
    let s = Shape::of(batch, in_feat, out_feat);
    cpu_layer(Format::OfK(FormatK::Q4K), x, w, y, scratch, s)
}

// The same in Q6_K.
pub fn linear_q6_k_cpu(
    x: &[f32],
    w: &[u8],
    y: &mut [f32],
    scratch: &mut [f32],
    batch: usize,
    in_feat: usize,
    out_feat: usize,
) -> Result<(), Refusal>
    ensures { (result, (y.new, scratch.new))
        ≡ cpu_says (Format.OfK FormatK.Q6K) (shape batch in_feat out_feat) x.now w.now
        y.old scratch.old }
{
    let s = Shape::of(batch, in_feat, out_feat);
    cpu_layer(Format::OfK(FormatK::Q6K), x, w, y, scratch, s)
}

// Rows of whole blocks of 32.
pub fn linear_q4_0_cpu(
    x: &[f32],
    w: &[u8],
    y: &mut [f32],
    scratch: &mut [f32],
    batch: usize,
    in_feat: usize,
    out_feat: usize,
) -> Result<(), Refusal>
    ensures { (result, (y.new, scratch.new))
        ≡ cpu_says (Format.Of32 Format32.Q40) (shape batch in_feat out_feat) x.now w.now
        y.old scratch.old }
{
    let s = Shape::of(batch, in_feat, out_feat);
    cpu_layer(Format::Of32(Format32::Q40), x, w, y, scratch, s)
}

// The same in GGML's order.
pub fn linear_q4_0_ggml_cpu(
    x: &[f32],
    w: &[u8],
    y: &mut [f32],
    scratch: &mut [f32],
    batch: usize,
    in_feat: usize,
    out_feat: usize,
) -> Result<(), Refusal>
    ensures { (result, (y.new, scratch.new))
        ≡ cpu_says (Format.Of32 Format32.Q40Ggml) (shape batch in_feat out_feat) x.now w.now
        y.old scratch.old }
{
    let s = Shape::of(batch, in_feat, out_feat);
    cpu_layer(Format::Of32(Format32::Q40Ggml), x, w, y, scratch, s)
}

// The same in IQ4_NL.
pub fn linear_iq4_nl_cpu(
    x: &[f32],
    w: &[u8],
    y: &mut [f32],
    scratch: &mut [f32],
    batch: usize,
    in_feat: usize,
    out_feat: usize,
) -> Result<(), Refusal>
    ensures { (result, (y.new, scratch.new))
        ≡ cpu_says (Format.Of32 Format32.Iq4Nl) (shape batch in_feat out_feat) x.now w.now
        y.old scratch.old }
{
    let s = Shape::of(batch, in_feat, out_feat);
    cpu_layer(Format::Of32(Format32::Iq4Nl), x, w, y, scratch, s)
}
