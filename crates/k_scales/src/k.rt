// The scales and the minimums of the K formats.
ghost use Rattle.std.specs.Prelude.{◌≡◌, ◌≤◌, ◌<◌, length};
ghost use Rattle.memory.specs.Lists.{table};
ghost use Rattle.layouts.specs.K.{scale_q4k, minimum_q4k, d_scale};
ghost use Rattle.k_scales.specs.Both.{scale_then_minimum};

use layouts::FormatK;

// The scale of Q4_K's sub-block j, six bits. It and what else is read of the first 16 bytes serves every format with
// minimums.
pub fn scale_q4k(block: &[u8], j: usize) -> u8
    requires { (16 ≤ length block.now) × (j < 8) }
    ensures { (result ≡ scale_q4k block.now j) × (result < 64) }
{
    if j < 4 {
        block[4 + j] % 64
    } else {
        block[8 + j] % 16 + 16 * (block[j] / 64)
    }
}

// The minimum of Q4_K's sub-block j, six bits.
pub fn minimum_q4k(block: &[u8], j: usize) -> u8
    requires { (16 ≤ length block.now) × (j < 8) }
    ensures { (result ≡ minimum_q4k block.now j) × (result < 64) }
{
    if j < 4 {
        block[8 + j] % 64
    } else {
        block[8 + j] / 16 + 16 * (block[4 + j] / 64)
    }
}

// The eight products d*scale of a block with minimums, and behind them its eight products dmin*minimum: place j has the
// scale of sub-block j, and place j + 8 its minimum. They are made together, and held in one array: a second call has
// the block's place and length written to memory and read once more, and a second array is copied.
pub fn scales_and_minimums(block: &[u8]) -> [f32; 16]
    requires { 16 ≤ length block.now }
    ensures { result ≡ table (scale_then_minimum block.now) 16 }
{
    let d = halves::f16_to_f32(numbers::le_u16(block[0], block[1]));
    let dmin = halves::f16_to_f32(numbers::le_u16(block[2], block[3]));
    let mut s = [0.0f32; 16];
    for j in 0..8usize {
        s[j] = d * scale_q4k(block, j) as f32;
        s[j + 8] = dmin * minimum_q4k(block, j) as f32;
    }
    s
}

// Q6_K's sixteen products d*scale, one for each run of 16.
pub fn scales_q6k(block: &[u8]) -> [f32; 16]
    requires { length block.now ≡ 210 }
    ensures { result ≡ table (d_scale FormatK.Q6K block.now) 16 }
{
    let d = halves::f16_to_f32(numbers::le_u16(block[208], block[209]));
    let mut s = [0.0f32; 16];
    for e in 0..16usize {
        s[e] = d * numbers::signed_byte(block[192 + e]) as f32;
    }
    s
}
