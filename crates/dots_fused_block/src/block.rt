// One block of a row: its terms go to eight lanes, with one look at the format.
ghost use Rattle.std.specs.Prelude.{◌≡◌, ◌≤◌, length};
ghost use Rattle.layouts.specs.Formats.{bytes_k};
ghost use Rattle.sums_lanes.specs.Lanes.{lanes_from};
ghost use Rattle.dots_fused_block.specs.Terms.{terms};

use crate::runs::add_runs;
use crate::sub_blocks::add_sub_blocks;
use layouts::FormatK;

// The lanes `l` after the 256 terms of a block. Formats with minimums share one worker, called in each one's branch.
// Whole numbers are laid out before the worker makes their scales: x86-64 has more to do at once then.
pub fn add_block(format: FormatK, l: [f32; 8], x: &[f32], block: &[u8]) -> [f32; 8]
    requires { (length x.now ≡ 256) × (length block.now ≡ bytes_k format) }
    ensures { result ≡ lanes_from l (terms format x.now block.now) 256 }
{
    match format {
        FormatK::Q4K => {
            let q = k_quants::quants_q4k(block);
            let mut out = l;
            add_sub_blocks(&mut out, x, block, &q);
            out
        }
        FormatK::Q5K => {
            let q = k_quants::quants_q5k(block);
            let mut out = l;
            add_sub_blocks(&mut out, x, block, &q);
            out
        }
        FormatK::Q6K => {
            let q = k_quants::quants_q6k(block);
            add_runs(l, x, block, &q)
        }
    }
}

// The lanes `l` after the terms of a row's last block, of which only the first places count. It is decoded as a whole,
// since the row may end inside a run.
pub fn add_short(format: FormatK, l: [f32; 8], x: &[f32], block: &[u8]) -> [f32; 8]
    requires { (length x.now ≤ 256) × (length block.now ≡ bytes_k format) }
    ensures { result ≡ lanes_from l (terms format x.now block.now) (length x.now) }
{
    let mut values = [0.0f32; 256];
    decoded_blocks::decode_k(format, block, &mut values);
    sums_lanes::add_products(l, x, &values)
}
