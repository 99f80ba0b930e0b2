// One chunk of a row: its blocks' terms go to eight lanes, which meet in the tree. The loop over blocks is one for all
// formats.
ghost use Rattle.std.specs.Prelude.{◌≡◌, ◌*◌, ◌/◌, ◌≤◌, ◌<◌, length};
ghost use Rattle.refusals.specs.Sizes.{most_in};
ghost use Rattle.layouts.specs.Formats.{bytes_k};
ghost use Rattle.layouts.specs.Weights.{values_of};
ghost use Rattle.sums_lanes.specs.Lanes.{lanes};
ghost use Rattle.sums.specs.Rows.{chunks_in, chunk_at};
ghost use Rattle.dots_fused_block.specs.Terms.{terms};

use dots_fused_block::{add_block, add_short};
use layouts::{Format, FormatK};

// The lanes of the whole blocks of x, the first of which has the weights of the first block of w.
#[tactic(auto, using(crate::proofs::Rows::block_room))]
fn whole_blocks(format: FormatK, x: &[f32], w: &[u8]) -> [f32; 8]
    requires { length x.now ≤ values_of (Format.OfK format) (length w.now) }
    ensures { result ≡ lanes (terms format x.now w.now)
        (256 * (length x.now / 256)) }
{
    let size = layouts::block_bytes(Format::OfK(format));
    let mut out = [0.0f32; 8];
    for b in 0..x.len() / 256 {
        let at = 256 * b;
        let end = at + 256;
        let from = b * size;
        let to = from + size;
        let next = add_block(format, out, &x[at..end], &w[from..to]);
        out = next;
    }
    out
}

// The lanes of all of x: its whole blocks, and after them the first places of one more.
#[tactic(auto, using(crate::proofs::Rows::block_room))]
fn all_blocks(format: FormatK, x: &[f32], w: &[u8]) -> [f32; 8]
    requires { length x.now ≤ values_of (Format.OfK format) (length w.now) }
    ensures { result ≡ lanes (terms format x.now w.now) (length x.now) }
{
    let n = x.len();
    let l = whole_blocks(format, x, w);
    if n % 256 == 0 {
        return l;
    }
    let size = layouts::block_bytes(Format::OfK(format));
    let last = n / 256;
    let at = 256 * last;
    let from = last * size;
    let to = from + size;
    add_short(format, l, &x[at..], &w[from..to])
}

// The sum of chunk c of a row of n places: the products of the readings x and the weights that w packs, over the places
// of this chunk alone. A chunk starts with a block.
#[tactic(auto, using(crate::proofs::Rows::rest_room))]
pub fn chunk_dot(format: FormatK, x: &[f32], w: &[u8], n: usize, c: usize) -> f32
    requires { (n ≤ most_in) × (n ≤ length x.now) × (n ≤ values_of (Format.OfK format) (length w.now))
        × (c < chunks_in n) }
    ensures { result ≡ chunk_at (terms format x.now w.now) n c }
{
    let s = sums::CHUNK * c;
    let e = sums::chunk_end(n, c);
    let from = s / 256 * layouts::block_bytes(Format::OfK(format));
    sums_tree::tree8(all_blocks(format, &x[s..e], &w[from..]))
}
