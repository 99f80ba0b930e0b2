// The dot of one packed block and one activation block.
ghost use Rattle.std.specs.Prelude.{◌≡◌, ◌+◌, ◌≤◌, ◌<◌, true, length};
ghost use Rattle.halves.specs.Binary16.{widened};
ghost use Rattle.numbers.specs.Fields.{le16};
ghost use Rattle.layouts.specs.Formats.{bytes_k, has_minimums};
ghost use Rattle.layouts.specs.K.{d_of};
ghost use Rattle.dots_activation.specs.Whole.{elem, sum_ℤ};
ghost use Rattle.dots_activation.specs.Blocks.{SmallSums, block_in};
ghost use Rattle.dots_whole.specs.Sums.{weighed_at};
ghost use Rattle.dots_whole.specs.Inner.{pairs_weighed};
ghost use Rattle.dots_activation.specs.Inner.{PairsWithin};
ghost use Rattle.dots_integer.specs.Dots.{scaled_sum, scaled_dot, block_dot};
ghost use Rattle.dots_integer.specs.Dots.{sums_serve, block_dot_says};

use dots_activation::{Q8Block, count_serves, sums_right};
use dots_whole::{minimum_sum, products, sum_by_runs, sum_of_products};
use layouts::{Format, FormatK};
use refusals::Refusal;

// The f16 field at i.
fn half_at(w: &[u8], i: usize) -> f32
    requires { i + 1 < length w.now }
    ensures { result ≡ widened (le16 w.now i) }
{
    halves::f16_to_f32(numbers::le_u16(w[i], w[i + 1]))
}

// The dot of a block with minimums, whose products are p in pairs. d and dmin are widened before the sums: behind them
// the branches of the widening would part the sums' loads from their arithmetic.
fn dot_of_products(w: &[u8], p: &[i16; 128], d: f32, sums: &[i32]) -> f32
    requires { (16 ≤ length w.now) × PairsWithin 7936 p.now × (length sums.now ≡ 8) × SmallSums sums.now }
    ensures { result ≡ scaled_dot FormatK.Q4K w.now d sums.now
        (pairs_weighed w.now p.now) }
{
    let scale = half_at(w, 0) * d;
    let minimum = half_at(w, 2) * d;
    let m = numbers::whole_to_f32(minimum_sum(w, sums));
    let a = numbers::whole_to_f32(sum_of_products(w, p));
    scale * a - minimum * m
}

// The dot of a Q6_K block, whose quants are q. It looks at no sums.
fn dot_of_runs(w: &[u8], q: &[i8; 256], d: f32, qs: &[i8]) -> f32
    requires { (length w.now ≡ 210) × (length qs.now ≡ 256) }
    ensures { result ≡ scaled_sum (d_of FormatK.Q6K w.now) d
        (sum_ℤ (weighed_at FormatK.Q6K w.now (elem q.now) qs.now) 256) }
{
    let scale = half_at(w, 208) * d;
    scale * numbers::whole_to_f32(sum_by_runs(w, q, qs))
}

// The dot of a packed block and an activation block, its scale, its 256 quants and its eight sums, for callers that
// made the block and so know its sums. Each format with minimums has its products made in its own branch, where the
// compiler knows how many bits a quant has; what is done with them is one call.
pub fn block_dot(format: FormatK, w: &[u8], d: f32, qs: &[i8], sums: &[i32]) -> f32
    requires { (length w.now ≡ bytes_k format) × (length qs.now ≡ 256) × (length sums.now ≡ 8)
        × (has_minimums format ≡ true → SmallSums sums.now) }
    ensures { result ≡ block_dot format w.now d qs.now sums.now 256 }
{
    match format {
        FormatK::Q4K | FormatK::Q5K => {
            let p = if let FormatK::Q5K = format {
                products(&k_quants::quants_q5k(w), qs)
            } else {
                products(&k_quants::quants_q4k(w), qs)
            };
            dot_of_products(w, &p, d, sums)
        }
        FormatK::Q6K => {
            let q = k_quants::quants_q6k(w);
            dot_of_runs(w, &q, d, qs)
        }
    }
}

// Whether the sums serve the format: one without minimums looks at no sums.
fn sums_serve(format: FormatK, qs: &[i8; 256], sums: &[i32; 8]) -> bool
    ensures { (result ≡ sums_serve format qs.now sums.now)
        × (result ≡ true → has_minimums format ≡ true → SmallSums sums.now) }
{
    match format {
        FormatK::Q4K | FormatK::Q5K => sums_right(qs, sums),
        FormatK::Q6K => true,
    }
}

// The dot of the first block of w and an activation block, n above 256 taken as 256. Refuses 3, 15 and 7, in this
// order. Past n every quant is 0 then, so that the dot over all places is the dot over those below n. The block's
// quants and sums are lent: a block by value would be copied.
#[tactic(auto, unfolding(crate::specs::Dots::block_dot_says, refusals::specs::Refusals::given))]
pub fn first_dot(
    format: FormatK,
    w: &[u8],
    d: f32,
    qs: &[i8; 256],
    sums: &[i32; 8],
    count: usize,
    n: usize,
) -> Result<f32, Refusal>
    ensures { result
        ≡ block_dot_says format w.now (block_in d qs.now sums.now count) n }
{
    let size = layouts::block_bytes(Format::OfK(format));
    if w.len() < size {
        return Err(layouts::weights_short(format, w.len(), 1));
    }
    if !count_serves(qs, count, n) {
        return Err(Refusal::WrongCount);
    }
    if !sums_serve(format, qs, sums) {
        return Err(Refusal::WrongSums);
    }
    Ok(block_dot(format, &w[..size], d, qs, sums))
}

// The dot of a Q4_K block and an activation block. Refuses 3, 15 and 7, in this order.
pub fn dot_q4k_q8_block(w: &[u8], xq: Q8Block, n: usize) -> Result<f32, Refusal>
    ensures { result ≡ block_dot_says FormatK.Q4K w.now xq n }
{
    let sums = xq.bsums;
    first_dot(FormatK::Q4K, w, xq.d, &xq.qs, &sums, xq.count, n)
}

// The dot of a Q5_K block and an activation block. Refuses 3, 15 and 7, in this order.
pub fn dot_q5k_q8_block(w: &[u8], xq: Q8Block, n: usize) -> Result<f32, Refusal>
    ensures { result ≡ block_dot_says FormatK.Q5K w.now xq n }
{
    let sums = xq.bsums;
    first_dot(FormatK::Q5K, w, xq.d, &xq.qs, &sums, xq.count, n)
}

// The dot of a Q6_K block and an activation block. Refuses 3 and 15, in this order.
pub fn dot_q6k_q8_block(w: &[u8], xq: Q8Block, n: usize) -> Result<f32, Refusal>
    ensures { result ≡ block_dot_says FormatK.Q6K w.now xq n }
{
    let sums = xq.bsums;
    first_dot(FormatK::Q6K, w, xq.d, &xq.qs, &sums, xq.count, n)
}
