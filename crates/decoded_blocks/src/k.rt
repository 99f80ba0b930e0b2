// The K formats: 256 values to a block, each a whole number times the scale of its place, less its minimum where the
// format has minimums.
ghost use Rattle.std.specs.Prelude.{◌≡◌, ◌≤◌, pos, length, get_or};
ghost use Rattle.std.specs.Float.{binary32};
ghost use Rattle.std.specs.Float.Ieee.{mul, sub, of_int};
ghost use Rattle.memory.specs.Lists.{table};
ghost use Rattle.layouts.specs.Formats.{bytes_k};
ghost use Rattle.layouts.specs.K.{value_of, value_k};

use crate::of32::scale_run;
use layouts::FormatK;

// A run of 16 whole numbers, each times the scale s, less the minimum m.
fn scale_run_less(q: &[u8], s: f32, m: f32, out: &mut [f32])
    requires { (length q.now ≡ 16) × (length out.old ≡ 16) }
    ensures { out.new
        ≡ table (λ l. sub binary32 (mul binary32 s (of_int binary32 (pos (get_or q.now l 0)))) m) 16 }
{
    for l in 0..16usize {
        out[l] = s * q[l] as f32 - m;
    }
}

// The 256 values of a block with minimums, whose whole numbers are q, a run of 16 a turn.
fn decode_sub_blocks(block: &[u8], q: &[u8], out: &mut [f32])
    requires { (16 ≤ length block.now) × (length q.now ≡ 256) × (length out.old ≡ 256) }
    ensures { out.new
        ≡ table (λ i. value_of FormatK.Q4K block.now i (pos (get_or q.now i 0))) 256 }
{
    let both = k_scales::scales_and_minimums(block);
    for e in 0..16usize {
        let at = 16 * e;
        let end = at + 16;
        scale_run_less(&q[at..end], both[e / 2], both[e / 2 + 8], &mut out[at..end]);
    }
}

// The 256 values of a Q6_K block, whose whole numbers are q, a run of 16 a turn.
fn decode_runs(block: &[u8], q: &[i8], out: &mut [f32])
    requires { (length block.now ≡ 210) × (length q.now ≡ 256) × (length out.old ≡ 256) }
    ensures { out.new
        ≡ table (λ i. value_of FormatK.Q6K block.now i (get_or q.now i (pos 0))) 256 }
{
    let scales = k_scales::scales_q6k(block);
    for e in 0..16usize {
        let at = 16 * e;
        let end = at + 16;
        scale_run(&q[at..end], scales[e], &mut out[at..end]);
    }
}

// One block's 256 values. The formats with minimums share one call of their decoder: with a call for each the compiler
// would not put it into the loop over blocks.
pub fn decode_k(format: FormatK, block: &[u8], out: &mut [f32])
    requires { (length block.now ≡ bytes_k format) × (length out.old ≡ 256) }
    ensures { out.new ≡ table (value_k format block.now) 256 }
{
    match format {
        FormatK::Q4K | FormatK::Q5K => {
            let q = if let FormatK::Q5K = format {
                k_quants::quants_q5k(block)
            } else {
                k_quants::quants_q4k(block)
            };
            decode_sub_blocks(block, &q, out)
        }
        FormatK::Q6K => {
            let q = k_quants::quants_q6k(block);
            decode_runs(block, &q, out)
        }
    }
}
