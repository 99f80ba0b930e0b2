// The fused dots.
ghost use Rattle.std.specs.Prelude.{◌≡◌};
ghost use Rattle.dots_fused.specs.Says.{fused_says};
ghost use Rattle.c_answers.specs.Answers.{laid_out_blocks};

use c_answers::lay_out_and_blocks;
use layouts::FormatK;

// `dots_fused::canonical_dot_q4k_fused`, for C.
#[unsafe(no_mangle)]
pub extern "C" fn jambharrow_canonical_dot_q4k_fused(
    x: &[f32],
    w: &[u8],
    n: usize,
    value: &mut f32,
    blocks: &mut [usize; 2],
) -> u32
    ensures { (result, (value.new, blocks.new))
        ≡ laid_out_blocks (fused_says FormatK.Q4K x.now w.now n) value.old
        blocks.old }
{
    lay_out_and_blocks(dots_fused::canonical_dot_q4k_fused(x, w, n), value, blocks)
}

// `dots_fused::canonical_dot_q5k_fused`, for C.
#[unsafe(no_mangle)]
pub extern "C" fn jambharrow_canonical_dot_q5k_fused(
    x: &[f32],
    w: &[u8],
    n: usize,
    value: &mut f32,
    blocks: &mut [usize; 2],
) -> u32
    ensures { (result, (value.new, blocks.new))
        ≡ laid_out_blocks (fused_says FormatK.Q5K x.now w.now n) value.old
        blocks.old }
{
    lay_out_and_blocks(dots_fused::canonical_dot_q5k_fused(x, w, n), value, blocks)
}

// `dots_fused::q6k_fused_f32_dot`, for C.
#[unsafe(no_mangle)]
pub extern "C" fn jambharrow_q6k_fused_f32_dot(
    x: &[f32],
    w: &[u8],
    n: usize,
    value: &mut f32,
    blocks: &mut [usize; 2],
) -> u32
    ensures { (result, (value.new, blocks.new))
        ≡ laid_out_blocks (fused_says FormatK.Q6K x.now w.now n) value.old
        blocks.old }
{
    lay_out_and_blocks(dots_fused::q6k_fused_f32_dot(x, w, n), value, blocks)
}
