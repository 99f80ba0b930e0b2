// The eight lanes: term i of a chunk is added to lane i mod 8, and the lanes meet in the tree. They go by value, eight
// terms at a time, so that they stay in registers.
ghost use Rattle.std.specs.Prelude.{◌≡◌, ◌≤◌, ◌<◌, ◌+◌, ◌^◌, ℕ, length, Float};
ghost use Rattle.sums_lanes.specs.Lanes.{lanes_from, chunk_sum, products, values};
ghost use Rattle.sums_lanes.specs.Says.{chunk_says};

use refusals::Refusal;
use sums_tree::tree8;

// Eight terms at most, from term s on, one for each lane: `term` gives each by its place. Where it is asked for eight it
// is inlined as a loop of that length, which two vectors hold.
fn eight_terms<F: Fn(usize) -> f32>(l: [f32; 8], s: usize, count: usize, term: &F) -> [f32; 8]
    ghost p: { ℕ → Float }
    requires few { (count ≤ 8) × (s + count < 2 ^ 64) }
    requires callable { (i : ℕ) → i < s + count → F.pre term.now i }
    requires means { (i : ℕ) (y : Float) → i < s + count → F.post term.now i y → y ≡ p i }
    ensures { result ≡ lanes_from l (λ i. p (s + i)) count }
{
    let mut out = l;
    for i in 0..count {
        out[i] = out[i] + term(s + i);
    }
    out
}

// The lanes `l` after n terms, the first of which is for lane 0. Where eights are all there is, the lanes stay in
// registers to the end.
fn add_terms<F: Fn(usize) -> f32>(l: [f32; 8], n: usize, term: &F) -> [f32; 8]
    ghost p: { ℕ → Float }
    requires callable { (i : ℕ) → i < n → F.pre term.now i }
    requires means { (i : ℕ) (y : Float) → i < n → F.post term.now i y → y ≡ p i }
    ensures { result ≡ lanes_from l p n }
{
    let mut out = l;
    for b in 0..n / 8 {
        let next = eight_terms(out, 8 * b, 8, term);
        out = next;
    }
    let rest = n % 8;
    if rest == 0 {
        return out;
    }
    eight_terms(out, n - rest, rest, term)
}

// The lanes `l` after the products of x and w.
pub fn add_products(l: [f32; 8], x: &[f32], w: &[f32]) -> [f32; 8]
    requires { length x.now ≤ length w.now }
    ensures { result ≡ lanes_from l (products x.now w.now) (length x.now) }
{
    add_terms(l, x.len(), &|i| x[i] * w[i])
}

// The dot of one chunk, all of x.
pub fn chunk_dot(x: &[f32], w: &[f32]) -> f32
    requires { length x.now ≤ length w.now }
    ensures { result ≡ chunk_sum (products x.now w.now) (length x.now) }
{
    tree8(add_products([0.0f32; 8], x, w))
}

// The dot of all of x as one chunk. Refuses 6 and 3, in this order.
pub fn canonical_chunk(x: &[f32], w: &[f32]) -> Result<f32, Refusal>
    ensures { result ≡ chunk_says x.now w.now }
{
    let n = x.len();
    if n > refusals::MOST_FLOATS {
        return Err(Refusal::TooLarge);
    }
    if w.len() < n {
        return Err(refusals::WEIGHTS_SHORT);
    }
    Ok(chunk_dot(x, w))
}

// The sum of one chunk, all of x.
pub fn chunk_total(x: &[f32]) -> f32
    ensures { result ≡ chunk_sum (values x.now) (length x.now) }
{
    tree8(add_terms([0.0f32; 8], x.len(), &|i| x[i]))
}
