// Where the chunks of a row lie, and how their sums meet.
ghost use Rattle.std.specs.Prelude.{◌≡◌, ◌+◌, ◌*◌, ◌<◌, ◌≤◌, ℕ, Float};
ghost use Rattle.refusals.specs.Sizes.{most_in};
ghost use Rattle.sums.specs.Rows.{chunks_in, chunk_length, chunk_at, row_sum};

use sums_tree::canonical_combine;

// The places of a chunk; the last of a row may have fewer.
pub const CHUNK: usize = 8_192;
// The chunks of a row at most.
pub const MOST_CHUNKS: usize = 16;

// How many chunks n places make: 16 at most.
pub fn chunks_in(n: usize) -> usize
    requires { n ≤ most_in }
    ensures { result ≡ chunks_in n }
{
    (n + (CHUNK - 1)) / CHUNK
}

// Where chunk c of n places ends; it starts at 8,192 c.
pub fn chunk_end(n: usize, c: usize) -> usize
    requires { (n ≤ most_in) × (c < chunks_in n) }
    ensures { (result ≡ 8192 * c + chunk_length n c) × (8192 * c < result) × (result ≤ n) }
{
    let s = CHUNK * c;
    if n - s > CHUNK { s + CHUNK } else { n }
}

// The sum of a row of n terms p, of which `chunk` gives the sum of chunk c: the sums of the chunks meet in the tree.
pub fn meet_chunks<F: Fn(usize) -> f32>(n: usize, chunk: F) -> f32
    ghost p: { ℕ → Float }
    requires size { n ≤ most_in }
    requires callable { (c : ℕ) → c < chunks_in n → F.pre chunk c }
    requires means { (c : ℕ) (y : Float) → c < chunks_in n → F.post chunk c y → y ≡ chunk_at p n c }
    ensures { result ≡ row_sum p n }
{
    let chunks = chunks_in(n);
    let mut sums = [0.0f32; MOST_CHUNKS];
    for c in 0..chunks {
        sums[c] = chunk(c);
    }
    canonical_combine(&mut sums[..chunks])
}
