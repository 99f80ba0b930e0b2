// The dot of a row: the dots of its chunks meet in the tree.
ghost use Rattle.std.specs.Prelude.{◌≡◌, ◌≤◌, ◌<◌, length};
ghost use Rattle.refusals.specs.Sizes.{most_in};
ghost use Rattle.sums_lanes.specs.Lanes.{products};
ghost use Rattle.sums.specs.Rows.{chunks_in, chunk_at, row_sum};
ghost use Rattle.sums.specs.Says.{dot_says};

use crate::chunks::{CHUNK, chunk_end, meet_chunks};
use refusals::Refusal;
use sums_lanes::chunk_dot;

// The dot of chunk c of n places.
fn dot_of_chunk(x: &[f32], w: &[f32], n: usize, c: usize) -> f32
    requires { (n ≤ most_in) × (n ≤ length x.now) × (n ≤ length w.now) × (c < chunks_in n) }
    ensures { result ≡ chunk_at (products x.now w.now) n c }
{
    let s = CHUNK * c;
    let e = chunk_end(n, c);
    chunk_dot(&x[s..e], &w[s..e])
}

// The dot of the first n places. That of a row of one chunk is the chunk's: a tree of one is what stands in it.
fn row_dot(x: &[f32], w: &[f32], n: usize) -> f32
    requires { (0 < n) × (n ≤ most_in) × (n ≤ length x.now) × (n ≤ length w.now) }
    ensures { result ≡ row_sum (products x.now w.now) n }
{
    if n <= CHUNK {
        return chunk_dot(&x[..n], &w[..n]);
    }
    meet_chunks(n, move |c| dot_of_chunk(x, w, n, c))
}

// The dot of the first n readings and weights. Refuses 6, answers n = 0 with +0.0, refuses 3 and 4, in this order.
pub fn canonical_dot_pub(x: &[f32], w: &[f32], n: usize) -> Result<f32, Refusal>
    ensures { result ≡ dot_says x.now w.now n }
{
    if n > refusals::MOST_IN {
        return Err(Refusal::TooLarge);
    }
    if n == 0 {
        return Ok(0.0);
    }
    if w.len() < n {
        return Err(refusals::WEIGHTS_SHORT);
    }
    if x.len() < n {
        return Err(Refusal::ReadingsShort);
    }
    Ok(row_dot(x, w, n))
}
