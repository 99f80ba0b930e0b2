// The whole-number sums of a block dot: scale times quant times activation quant over all places, and the
// minimums times the sums. A sub-block of 32 or a run of 16 has one scale, so that several of its products are summed
// first. Whatever the bytes are, i16 holds four products of a quant of at most five bits, 4 x 31 x 128 = 15,872 in
// size, and i32 every sum: of a format with minimums at most 64 x 63 x 15,872, and 16 runs of 16 x 128 x 128, each
// times a signed byte, stay below 2^31 too.
ghost use Rattle.std.specs.Prelude.{◌≡◌, ℕ, ◌+◌, ◌*◌, ◌≤◌, ◌<◌, ℤ, pos, ◌+ℤ◌, ◌*ℤ◌, length};
ghost use Rattle.memory.specs.Lists.{table};
ghost use Rattle.dots_activation.specs.Whole.{elem, sum_ℤ, Within};
ghost use Rattle.dots_activation.specs.Inner.{pair_of, PairsWithin};
ghost use Rattle.dots_activation.specs.Blocks.{SmallSums};
ghost use Rattle.dots_whole.specs.Inner.{FiveBits, product_at, pairs_weighed, lane_at, LanesWithin};
ghost use Rattle.dots_whole.specs.Sums.{weighed_at, minimum_sum};

use layouts::FormatK;

// A quant of at most five bits times an activation quant and another times another, in 16 bits.
fn two_products(a: u8, x: i8, b: u8, y: i8) -> i16
    requires { (a < 32) × (b < 32) }
    ensures { (result ≡ pos a *ℤ x +ℤ pos b *ℤ y) × Within 7936 result }
{
    a as i16 * x as i16 + b as i16 * y as i16
}

// One quant times another.
fn product(a: i8, x: i8) -> i32
    ensures { (result ≡ a *ℤ x) × Within 16384 result }
{
    a as i32 * x as i32
}

// A scale or a minimum times the sum that it weighs.
fn weighed(a: i8, s: i32) -> i32
    requires { Within 1044480 s }
    ensures { (result ≡ a *ℤ s) × Within 133693440 result }
{
    a as i32 * s
}

// The products at places i and 16 + i.
fn products_at(q: &[u8], x: &[i8], i: usize) -> i16
    requires { FiveBits q.now × (length q.now ≡ 64) × (length x.now ≡ 64) × (i < 48) }
    ensures { (result ≡ product_at q.now x.now i
        +ℤ product_at q.now x.now (16 + i)) × Within 7936 result }
{
    two_products(q[i], x[i], q[16 + i], x[16 + i])
}

// The products of two sub-blocks in pairs, the two halves of each side by side. One pair of each a turn: two streams,
// which are vectors.
fn two_sub_blocks(q: &[u8], x: &[i8], p: &mut [i16])
    requires { FiveBits q.now × (length q.now ≡ 64) × (length x.now ≡ 64) × (length p.old ≡ 32) }
    ensures { (p.new ≡ table (pair_of (product_at q.now x.now)) 32)
        × ((i : ℕ) → i < 32 → Within 7936 (pair_of (product_at q.now x.now) i)) }
{
    for l in 0..16usize {
        p[l] = products_at(q, x, l);
        p[16 + l] = products_at(q, x, 32 + l);
    }
}

// The products of a block in pairs, two sub-blocks a turn. It counts to a length that it is handed, and so is short
// where it is compiled by itself: the compiler puts it into each format's branch, where it knows how many bits a quant
// has.
pub fn products(q: &[u8], x: &[i8]) -> [i16; 128]
    requires { FiveBits q.now × (length q.now ≡ 256) × (length x.now ≡ 256) }
    ensures { (result ≡ table (pair_of (product_at q.now x.now)) 128) × PairsWithin 7936 result }
{
    let mut p = [0i16; 128];
    for g in 0..q.len() / 64 {
        let at = 64 * g;
        let end = at + 64;
        let from = 32 * g;
        let to = from + 32;
        two_sub_blocks(&q[at..end], &x[at..end], &mut p[from..to]);
    }
    p
}

// A scale of six bits times two pairs of products.
fn weighed_pairs(scale: u8, x: i16, y: i16) -> i32
    requires { (scale < 64) × Within 7936 x × Within 7936 y }
    ensures { (result ≡ pos scale *ℤ (x +ℤ y)) × Within 999936 result }
{
    scale as i32 * (x + y) as i32
}

// The sub-blocks' products, each times its scale, in eight lanes: lane l has places l, l + 8, l + 16 and l + 24 of
// every sub-block. No sub-block is summed by itself: that would be a reduction each.
fn lanes_of(w: &[u8], p: &[i16; 128]) -> [i32; 8]
    requires { (16 ≤ length w.now) × PairsWithin 7936 p.now }
    ensures { (result ≡ table (lane_at w.now p.now) 8) × LanesWithin 7999488 result }
{
    let mut lanes = [0i32; 8];
    for j in 0..8usize {
        let scale = k_scales::scale_q4k(w, j);
        let low = 16 * j;
        let high = low + 8;
        for l in 0..8usize {
            lanes[l] += weighed_pairs(scale, p[low + l], p[high + l]);
        }
    }
    lanes
}

// The sum of the eight lanes.
fn sum_of_lanes(lanes: &[i32; 8]) -> i32
    requires { LanesWithin 7999488 lanes.now }
    ensures { result ≡ sum_ℤ (elem lanes.now) 8 }
{
    let mut a: i32 = 0;
    for &lane in lanes {
        a += lane;
    }
    a
}

// The products of run e.
fn run(q: &[i8; 256], x: &[i8], e: usize) -> i32
    requires { (length x.now ≡ 256) × (e < 16) }
    ensures { (result ≡ sum_ℤ (λ l. elem q.now (16 * e + l) *ℤ elem x.now (16 * e + l)) 16)
        × Within 1044480 result }
{
    let from = 16 * e;
    let mut s: i32 = 0;
    for l in 0..16usize {
        s += product(q[from + l], x[from + l]);
    }
    s
}

// The whole-number sum over all places of a block with minimums, of its products in pairs: a scale for each sub-block.
pub fn sum_of_products(w: &[u8], p: &[i16; 128]) -> i32
    requires { (16 ≤ length w.now) × PairsWithin 7936 p.now }
    ensures { result ≡ pairs_weighed w.now p.now }
{
    let lanes = lanes_of(w, p);
    sum_of_lanes(&lanes)
}

// That of a Q6_K block, whose quants are q: a scale for each run.
pub fn sum_by_runs(w: &[u8], q: &[i8; 256], x: &[i8]) -> i32
    requires { (length w.now ≡ 210) × (length x.now ≡ 256) }
    ensures { result ≡ sum_ℤ (weighed_at FormatK.Q6K w.now (elem q.now) x.now) 256 }
{
    let mut a: i32 = 0;
    for e in 0..16usize {
        a += weighed(numbers::signed_byte(w[192 + e]), run(q, x, e));
    }
    a
}

// The minimums times the activation block's sums, all eight.
pub fn minimum_sum(w: &[u8], sums: &[i32]) -> i32
    requires { (16 ≤ length w.now) × (length sums.now ≡ 8) × SmallSums sums.now }
    ensures { result ≡ minimum_sum w.now sums.now }
{
    let mut m: i32 = 0;
    for j in 0..8usize {
        m += weighed(k_scales::minimum_q4k(w, j) as i8, sums[j]);
    }
    m
}
