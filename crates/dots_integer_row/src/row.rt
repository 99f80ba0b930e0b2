// The dot of a row of packed blocks and readings, in whole numbers block by block.
ghost use Rattle.std.specs.Prelude.{◌≡◌, ◌+◌, ◌*◌, ◌≤◌, ◌<◌, length};
ghost use Rattle.refusals.specs.Sizes.{most_in};
ghost use Rattle.memory.specs.Lists.{stretch_length, stretches_in};
ghost use Rattle.layouts.specs.Formats.{bytes_k};
ghost use Rattle.dots_integer_row.specs.Rows.{integer_row, integer_says};

use dots_activation::quantized_block;
use dots_integer::block_dot;
use layouts::{Format, FormatK, blocks_in};
use refusals::Refusal;

// The blocks of a row at most.
const MOST_BLOCKS: usize = 512;

// Where the readings of block b of n places end; they start at 256 b.
fn block_end(n: usize, b: usize) -> usize
    requires { (n ≤ most_in) × (b < stretches_in 256 n) }
    ensures { (result ≡ 256 * b + stretch_length 256 n b) × (256 * b < result) × (result ≤ n) }
{
    n.min(256 * b + 256)
}

// The dot of the first n places: the dots of the blocks meet in the tree. Past the readings of the last block its
// quants are 0, and add nothing. Quants are taken out of their block as its sums are: where a part of it is lent, the
// whole block is copied first.
#[tactic(auto, using(crate::proofs::Rows::lies))]
fn integer_row(format: FormatK, x: &[f32], w: &[u8], n: usize) -> f32
    requires { (n ≤ most_in) × (n ≤ length x.now) × (stretches_in 256 n * bytes_k format ≤ length w.now) }
    ensures { result ≡ integer_row format x.now w.now n }
{
    let size = layouts::block_bytes(Format::OfK(format));
    let blocks = blocks_in(n);
    let mut dots = [0.0f32; MOST_BLOCKS];
    for b in 0..blocks {
        let s = 256 * b;
        let e = block_end(n, b);
        let from = b * size;
        let to = from + size;
        let block = quantized_block(&x[s..e]);
        let qs = block.qs;
        let sums = block.bsums;
        dots[b] = block_dot(format, &w[from..to], block.d, &qs, &sums);
    }
    sums_tree::canonical_combine(&mut dots[..blocks])
}

// The dot of the first n readings, quantised block by block, and the packed weights. Refuses 6 and 1, answers n = 0
// with +0.0, refuses 3 and 4, in this order.
#[tactic(auto, unfolding(crate::specs::Rows::integer_says, refusals::specs::Refusals::given))]
fn integer_dot(format: FormatK, x: &[f32], w: &[u8], n: usize) -> Result<f32, Refusal>
    ensures { result ≡ integer_says format x.now w.now n }
{
    let size = layouts::block_bytes(Format::OfK(format));
    if n > refusals::MOST_IN {
        return Err(Refusal::TooLarge);
    }
    if w.len() % size != 0 {
        return Err(Refusal::NotWholeBlocks);
    }
    if n == 0 {
        return Ok(0.0);
    }
    let needed = blocks_in(n);
    if w.len() < needed * size {
        return Err(layouts::weights_short(format, w.len(), needed));
    }
    if x.len() < n {
        return Err(Refusal::ReadingsShort);
    }
    Ok(integer_row(format, x, w, n))
}

// The dot of a row of Q4_K.
pub fn integer_dot_q4k(x: &[f32], w: &[u8], n: usize) -> Result<f32, Refusal>
    ensures { result ≡ integer_says FormatK.Q4K x.now w.now n }
{
    integer_dot(FormatK::Q4K, x, w, n)
}

// The dot of a row of Q5_K.
pub fn integer_dot_q5k(x: &[f32], w: &[u8], n: usize) -> Result<f32, Refusal>
    ensures { result ≡ integer_says FormatK.Q5K x.now w.now n }
{
    integer_dot(FormatK::Q5K, x, w, n)
}
