// Fixed-order sums.
ghost use Rattle.std.specs.Prelude.{◌≡◌};
ghost use Rattle.sums_tree.specs.Tree.{combined};
ghost use Rattle.sums_lanes.specs.Says.{chunk_says};
ghost use Rattle.sums.specs.Says.{dot_says, sum_says};
ghost use Rattle.c_answers.specs.Answers.{laid_out};

use c_answers::lay_out;

// `sums_lanes::canonical_chunk`, for C.
#[unsafe(no_mangle)]
pub extern "C" fn jambharrow_canonical_chunk(x: &[f32], w: &[f32], value: &mut f32) -> u32
    ensures { (result, value.new)
        ≡ laid_out (chunk_says x.now w.now) value.old }
{
    lay_out(sums_lanes::canonical_chunk(x, w), value)
}

// `sums_tree::canonical_combine`, for C.
#[unsafe(no_mangle)]
pub extern "C" fn jambharrow_canonical_combine(part: &mut [f32]) -> f32
    ensures { (result, part.new) ≡ combined part.old }
{
    sums_tree::canonical_combine(part)
}

// `sums::canonical_dot_pub`, for C.
#[unsafe(no_mangle)]
pub extern "C" fn jambharrow_canonical_dot_pub(
    x: &[f32],
    w: &[f32],
    n: usize,
    value: &mut f32,
) -> u32
    ensures { (result, value.new)
        ≡ laid_out (dot_says x.now w.now n) value.old }
{
    lay_out(sums::canonical_dot_pub(x, w, n), value)
}

// `sums::canonical_sum_pub`, for C.
#[unsafe(no_mangle)]
pub extern "C" fn jambharrow_canonical_sum_pub(x: &[f32], n: usize, value: &mut f32) -> u32
    ensures { (result, value.new) ≡ laid_out (sum_says x.now n) value.old }
{
    lay_out(sums::canonical_sum_pub(x, n), value)
}
