// The fused dot of a row: the sums of its chunks meet in the tree.
ghost use Rattle.std.specs.Prelude.{◌≡◌, ◌≤◌, length};
ghost use Rattle.refusals.specs.Sizes.{most_in};
ghost use Rattle.layouts.specs.Weights.{values_of};
ghost use Rattle.sums.specs.Rows.{row_sum};
ghost use Rattle.dots_fused_block.specs.Terms.{terms};
ghost use Rattle.dots_fused.specs.Says.{fused_says};

use dots_fused_chunk::chunk_dot;
use layouts::{Format, FormatK};
use refusals::Refusal;

// The dot of the first n places.
fn row_dot(format: FormatK, x: &[f32], w: &[u8], n: usize) -> f32
    requires { (n ≤ most_in) × (n ≤ length x.now) × (n ≤ values_of (Format.OfK format) (length w.now)) }
    ensures { result ≡ row_sum (terms format x.now w.now) n }
{
    sums::meet_chunks(n, move |c| chunk_dot(format, x, w, n, c))
}

// The dot of the first n readings and the first n weights that w packs. Refuses 6 and 1, answers n = 0 with +0.0,
// refuses 3 and 4, in this order.
pub fn fused_dot(format: FormatK, x: &[f32], w: &[u8], n: usize) -> Result<f32, Refusal>
    ensures { result ≡ fused_says format x.now w.now n }
{
    let size = layouts::block_bytes(Format::OfK(format));
    let over = w.len() % size;
    let found = w.len() / size;
    if n > refusals::MOST_IN {
        return Err(Refusal::TooLarge);
    }
    if over != 0 {
        return Err(Refusal::NotWholeBlocks);
    }
    if n == 0 {
        return Ok(0.0);
    }
    if found * 256 < n {
        return Err(refusals::blocks_short(found, layouts::blocks_in(n)));
    }
    if x.len() < n {
        return Err(Refusal::ReadingsShort);
    }
    Ok(row_dot(format, x, w, n))
}

// The dot of a row of Q4_K. Where the Rust adds up a short row and says Ok, this refuses 3.
pub fn canonical_dot_q4k_fused(x: &[f32], w: &[u8], n: usize) -> Result<f32, Refusal>
    ensures { result ≡ fused_says FormatK.Q4K x.now w.now n }
{
    fused_dot(FormatK::Q4K, x, w, n)
}

// The dot of a row of Q5_K.
pub fn canonical_dot_q5k_fused(x: &[f32], w: &[u8], n: usize) -> Result<f32, Refusal>
    ensures { result ≡ fused_says FormatK.Q5K x.now w.now n }
{
    fused_dot(FormatK::Q5K, x, w, n)
}

// The dot of a row of Q6_K.
pub fn q6k_fused_f32_dot(x: &[f32], w: &[u8], n: usize) -> Result<f32, Refusal>
    ensures { result ≡ fused_says FormatK.Q6K x.now w.now n }
{
    fused_dot(FormatK::Q6K, x, w, n)
}
