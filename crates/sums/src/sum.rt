// The sum of a row: the sums of its chunks meet in the tree.
ghost use Rattle.std.specs.Prelude.{◌≡◌, ◌≤◌, ◌<◌, length};
ghost use Rattle.refusals.specs.Sizes.{most_in};
ghost use Rattle.sums_lanes.specs.Lanes.{values};
ghost use Rattle.sums.specs.Rows.{chunks_in, chunk_at, row_sum};
ghost use Rattle.sums.specs.Says.{sum_says};

use crate::chunks::{CHUNK, chunk_end, meet_chunks};
use refusals::Refusal;
use sums_lanes::chunk_total;

// The sum of chunk c of n places.
fn total_of_chunk(x: &[f32], n: usize, c: usize) -> f32
    requires { (n ≤ most_in) × (n ≤ length x.now) × (c < chunks_in n) }
    ensures { result ≡ chunk_at (values x.now) n c }
{
    let s = CHUNK * c;
    let e = chunk_end(n, c);
    chunk_total(&x[s..e])
}

// The sum of the first n places.
fn row_total(x: &[f32], n: usize) -> f32
    requires { (n ≤ most_in) × (n ≤ length x.now) }
    ensures { result ≡ row_sum (values x.now) n }
{
    meet_chunks(n, move |c| total_of_chunk(x, n, c))
}

// The sum of the first n readings. Refuses 6, answers n = 0 with +0.0, refuses 4, in this order.
pub fn canonical_sum_pub(x: &[f32], n: usize) -> Result<f32, Refusal>
    ensures { result ≡ sum_says x.now n }
{
    if n > refusals::MOST_IN {
        return Err(Refusal::TooLarge);
    }
    if n == 0 {
        return Ok(0.0);
    }
    if x.len() < n {
        return Err(Refusal::ReadingsShort);
    }
    Ok(row_total(x, n))
}
