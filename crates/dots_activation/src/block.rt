// The activation block: how it is made of readings, whether it is of n of them, and whether its sums are the sums of
// its 32s.
ghost use Rattle.std.specs.Prelude.{◌≡◌, ◌+◌, ◌≤◌, ◌<◌, true, ◌+ℤ◌, length};
ghost use Rattle.memory.specs.Lists.{table};
ghost use Rattle.dots_activation.specs.Whole.{elem, Within};
ghost use Rattle.dots_activation.specs.Inner.{pair_of, PairsWithin, sum_of_pairs};
ghost use Rattle.dots_activation.specs.Blocks.{quant_at, sums_of, zeros_past, count_serves, sums_right, SmallSums};
ghost use Rattle.dots_activation.specs.Blocks.{block_with, block_of, block_says};

use refusals::Refusal;

// One float scale, 256 signed quants, eight sums of 32, and how many readings it was made of. It is made by
// `block_with` and read by the block dots.
#[derive(Clone, Copy)]
pub struct Q8Block {
    pub d: f32,
    pub qs: [i8; 256],
    pub bsums: [i32; 8],
    pub count: usize,
}

// The sum of quants i and 16 + i, in 16 bits.
fn pair(qs: &[i8; 256], i: usize) -> i16
    requires { i < 240 }
    ensures { (result ≡ elem qs.now i +ℤ elem qs.now (16 + i)) × Within 256 result }
{
    qs[i] as i16 + qs[16 + i] as i16
}

// The quants in pairs, the two halves of each sub-block side by side. One pair of each sub-block a turn: eight streams,
// which are vectors.
fn pairs(qs: &[i8; 256]) -> [i16; 128]
    ensures { (result ≡ table (pair_of (elem qs.now)) 128) × PairsWithin 256 result }
{
    let mut t = [0i16; 128];
    for l in 0..16usize {
        t[l] = pair(qs, l);
        t[16 + l] = pair(qs, 32 + l);
        t[32 + l] = pair(qs, 64 + l);
        t[48 + l] = pair(qs, 96 + l);
        t[64 + l] = pair(qs, 128 + l);
        t[80 + l] = pair(qs, 160 + l);
        t[96 + l] = pair(qs, 192 + l);
        t[112 + l] = pair(qs, 224 + l);
    }
    t
}

// The sum of the 16 pairs of sub-block j, at most 4,096 in size.
fn sum_of_32(pairs: &[i16; 128], j: usize) -> i16
    requires { PairsWithin 256 pairs.now × (j < 8) }
    ensures { (result ≡ sum_of_pairs pairs.now j) × Within 4096 result }
{
    let low = 16 * j;
    let high = low + 8;
    let mut s: i16 = 0;
    for l in 0..8usize {
        s += pairs[low + l] + pairs[high + l];
    }
    s
}

fn sums_of(qs: &[i8; 256]) -> [i32; 8]
    ensures { result ≡ sums_of qs.now }
{
    let t = pairs(qs);
    let mut sums = [0i32; 8];
    for j in 0..8usize {
        sums[j] = sum_of_32(&t, j) as i32;
    }
    sums
}

// Whether the eight sums are the sums of the quants' 32s.
pub fn sums_right(qs: &[i8; 256], bsums: &[i32; 8]) -> bool
    ensures { (result ≡ sums_right qs.now bsums.now)
        × (result ≡ true → SmallSums bsums.now) }
{
    let t = pairs(qs);
    for j in 0..8usize {
        if sum_of_32(&t, j) as i32 != bsums[j] {
            return false;
        }
    }
    true
}

// Whether every quant from n on is 0. All are looked at, a vector at a time.
fn zeros_past(qs: &[i8; 256], n: usize) -> bool
    requires { n ≤ 256 }
    ensures { result ≡ zeros_past qs.now n }
{
    let mut zeros = true;
    for &q in &qs[n..] {
        if q != 0 {
            zeros = false;
        }
    }
    zeros
}

// Whether a block of `count` readings serves n places, n above 256 taken as 256: of a full block no quant is looked at.
#[tactic(auto, unfolding(crate::specs::Blocks::count_serves))]
pub fn count_serves(qs: &[i8; 256], count: usize, n: usize) -> bool
    ensures { result ≡ count_serves qs.now count n }
{
    if n.min(256) != count {
        return false;
    }
    zeros_past(qs, count)
}

// The quants of the readings, and 0 past them.
fn quants_of(x: &[f32], inverse: f32) -> [i8; 256]
    requires { length x.now ≤ 256 }
    ensures { result ≡ table (quant_at x.now inverse) 256 }
{
    let mut qs = [0i8; 256];
    for i in 0..x.len() {
        qs[i] = readings::round_q8(x[i] * inverse);
    }
    qs
}

// The block of a scale, quants and a count: every block is made here.
fn block_with(d: f32, qs: [i8; 256], count: usize) -> Q8Block
    ensures { result ≡ block_with d qs count }
{
    let bsums = sums_of(&qs);
    Q8Block {
        d,
        qs,
        bsums,
        count,
    }
}

// The block of at most 256 readings.
#[tactic(auto, unfolding(crate::specs::Blocks::block_of))]
pub fn quantized_block(x: &[f32]) -> Q8Block
    requires { length x.now ≤ 256 }
    ensures { result ≡ block_of x.now }
{
    let d = readings::scale_q8(x);
    block_with(d, quants_of(x, readings::inverse_of(d)), x.len())
}

// The block of the readings. Refuses 4 for more than 256 of them.
#[tactic(auto, unfolding(crate::specs::Blocks::block_says, refusals::specs::Refusals::given))]
pub fn quantize_block_q8(x: &[f32]) -> Result<Q8Block, Refusal>
    ensures { result ≡ block_says x.now }
{
    if x.len() > 256 {
        return Err(Refusal::ReadingsShort);
    }
    Ok(quantized_block(x))
}
