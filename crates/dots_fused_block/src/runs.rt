// A Q6_K block: sixteen runs of 16, each with a scale of its own. Whole numbers and products are laid out before the
// loop, and the lanes go by value, eight terms at a time, so that each step is on vectors.
ghost use Rattle.std.specs.Prelude.{◌≡◌, pos, length, get_or};
ghost use Rattle.std.specs.Float.{binary32};
ghost use Rattle.std.specs.Float.Ieee.{of_int};
ghost use Rattle.sums_lanes.specs.Lanes.{lanes_from};
ghost use Rattle.dots_fused_block.specs.Inner.{block_terms, run_terms};

use layouts::FormatK;

// A whole number as a float. It goes over an unsigned byte: SSE2 widens a signed one together with what its register
// held before, and so waits for the lanes.
fn to_f32(q: i8) -> f32
    ensures { result ≡ of_int binary32 q }
{
    (q as i32 + 128) as u8 as f32 - 128.0
}

// Eight terms, one for each lane.
fn eight_terms(l: [f32; 8], x: &[f32], q: &[i8], d: f32) -> [f32; 8]
    requires { (length x.now ≡ 8) × (length q.now ≡ 8) }
    ensures { result ≡ lanes_from l (run_terms x.now q.now d) 8 }
{
    let mut out = l;
    for i in 0..8usize {
        out[i] = out[i] + x[i] * (d * to_f32(q[i]));
    }
    out
}

// The lanes `l` after the 16 terms of a run, eight at a time.
fn add_run(l: [f32; 8], x: &[f32], q: &[i8], d: f32) -> [f32; 8]
    requires { (length x.now ≡ 16) × (length q.now ≡ 16) }
    ensures { result ≡ lanes_from l (run_terms x.now q.now d) 16 }
{
    let half = eight_terms(l, &x[0..8], &q[0..8], d);
    eight_terms(half, &x[8..16], &q[8..16], d)
}

// The lanes `l` after the 256 terms of a block whose whole numbers are q, a run a turn.
pub(crate) fn add_runs(l: [f32; 8], x: &[f32], block: &[u8], q: &[i8]) -> [f32; 8]
    requires { (length x.now ≡ 256) × (length block.now ≡ 210) × (length q.now ≡ 256) }
    ensures { result ≡ lanes_from l
        (block_terms FormatK.Q6K x.now block.now (λ i. get_or q.now i (pos 0))) 256 }
{
    let scales = k_scales::scales_q6k(block);
    let mut out = l;
    for e in 0..16usize {
        let at = 16 * e;
        let end = at + 16;
        let next = add_run(out, &x[at..end], &q[at..end], scales[e]);
        out = next;
    }
    out
}
