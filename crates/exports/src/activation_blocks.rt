// Activation blocks, and the integer dots over them.
ghost use Rattle.std.specs.Prelude.{◌≡◌};
ghost use Rattle.dots_activation.specs.Blocks.{block_in, block_says};
ghost use Rattle.dots_integer.specs.Dots.{block_dot_says};
ghost use Rattle.dots_integer_row.specs.Rows.{integer_says};
ghost use Rattle.c_answers.specs.Answers.{laid_out, laid_out_blocks};

use c_answers::{lay_out_and_blocks, lay_out_block};
use layouts::FormatK;

// `dots_activation::quantize_block_q8`, for C.
#[unsafe(no_mangle)]
pub extern "C" fn jambharrow_quantize_block_q8(
    x: &[f32],
    d: &mut f32,
    qs: &mut [i8; 256],
    bsums: &mut [i32; 8],
    count: &mut usize,
) -> u32
    ensures { (result, block_in d.new qs.new bsums.new count.new)
        ≡ laid_out (block_says x.now)
        (block_in d.old qs.old bsums.old count.old) }
{
    lay_out_block(dots_activation::quantize_block_q8(x), d, qs, bsums, count)
}

// `dots_integer::dot_q4k_q8_block`, for C.
#[unsafe(no_mangle)]
pub extern "C" fn jambharrow_dot_q4k_q8_block(
    w: &[u8],
    d: f32,
    qs: &[i8; 256],
    bsums: &[i32; 8],
    count: usize,
    n: usize,
    value: &mut f32,
    blocks: &mut [usize; 2],
) -> u32
    ensures { (result, (value.new, blocks.new))
        ≡ laid_out_blocks (block_dot_says FormatK.Q4K w.now
        (block_in d qs.now bsums.now count) n)
        value.old blocks.old }
{
    lay_out_and_blocks(
        dots_integer::first_dot(FormatK::Q4K, w, d, qs, bsums, count, n),
        value,
        blocks,
    )
}

// `dots_integer::dot_q5k_q8_block`, for C.
#[unsafe(no_mangle)]
pub extern "C" fn jambharrow_dot_q5k_q8_block(
    w: &[u8],
    d: f32,
    qs: &[i8; 256],
    bsums: &[i32; 8],
    count: usize,
    n: usize,
    value: &mut f32,
    blocks: &mut [usize; 2],
) -> u32
    ensures { (result, (value.new, blocks.new))
        ≡ laid_out_blocks (block_dot_says FormatK.Q5K w.now
        (block_in d qs.now bsums.now count) n)
        value.old blocks.old }
{
    lay_out_and_blocks(
        dots_integer::first_dot(FormatK::Q5K, w, d, qs, bsums, count, n),
        value,
        blocks,
    )
}

// `dots_integer::dot_q6k_q8_block`, for C.
#[unsafe(no_mangle)]
pub extern "C" fn jambharrow_dot_q6k_q8_block(
    w: &[u8],
    d: f32,
    qs: &[i8; 256],
    bsums: &[i32; 8],
    count: usize,
    n: usize,
    value: &mut f32,
    blocks: &mut [usize; 2],
) -> u32
    ensures { (result, (value.new, blocks.new))
        ≡ laid_out_blocks (block_dot_says FormatK.Q6K w.now
        (block_in d qs.now bsums.now count) n)
        value.old blocks.old }
{
    lay_out_and_blocks(
        dots_integer::first_dot(FormatK::Q6K, w, d, qs, bsums, count, n),
        value,
        blocks,
    )
}

// `dots_integer_row::integer_dot_q4k`, for C.
#[unsafe(no_mangle)]
pub extern "C" fn jambharrow_integer_dot_q4k(
    x: &[f32],
    w: &[u8],
    n: usize,
    value: &mut f32,
    blocks: &mut [usize; 2],
) -> u32
    ensures { (result, (value.new, blocks.new))
        ≡ laid_out_blocks (integer_says FormatK.Q4K x.now w.now n)
        value.old blocks.old }
{
    lay_out_and_blocks(dots_integer_row::integer_dot_q4k(x, w, n), value, blocks)
}

// `dots_integer_row::integer_dot_q5k`, for C.
#[unsafe(no_mangle)]
pub extern "C" fn jambharrow_integer_dot_q5k(
    x: &[f32],
    w: &[u8],
    n: usize,
    value: &mut f32,
    blocks: &mut [usize; 2],
) -> u32
    ensures { (result, (value.new, blocks.new))
        ≡ laid_out_blocks (integer_says FormatK.Q5K x.now w.now n)
        value.old blocks.old }
{
    lay_out_and_blocks(dots_integer_row::integer_dot_q5k(x, w, n), value, blocks)
}
