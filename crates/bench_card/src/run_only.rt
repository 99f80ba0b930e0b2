// The cases that are run only. Readings are small whole numbers and weights are ones, so that every sum is exact, in
// whatever order it is added up.
ghost use Rattle.std.specs.Prelude.{◌≡◌};
ghost use Rattle.sums.specs.Says.{dot_says};
ghost use Rattle.dots_fused.specs.Says.{fused_says};
ghost use Rattle.replay_answers.specs.Same.{same_answer};
ghost use Rattle.bench_card.specs.RunOnly.{ones, block_of_ones};

use layouts::FormatK;
use replay_answers::same_answer;

// The places of a row at most: one more than a chunk has.
pub const MOST: usize = 8_193;

// Reading i is 1 to 7, in turn.
pub fn fill(x: &mut [f32]) {
    for (i, reading) in x.iter_mut().enumerate() {
        *reading = (i % 7 + 1) as u8 as f32;
    }
}

// The first n readings, added up one after the other.
pub fn plain_sum(x: &[f32], n: usize) -> f32 {
    let mut sum: f32 = 0.0;
    for &reading in x.iter().take(n) {
        sum = sum + reading;
    }
    sum
}

// The first n readings against as many ones say this number, or, where the number is 0, this sum.
pub fn against_ones(x: &[f32], n: usize, number: u32, sum: f32) -> bool
    ensures { result ≡ same_answer (dot_says x.now ones n) number sum }
{
    let w = [1.0f32; MOST];
    same_answer(sums::canonical_dot_pub(x, &w, n), number, sum)
}

// The same against one Q4_K block whose values are ones.
pub fn against_one_block(x: &[f32], n: usize, number: u32, sum: f32) -> bool
    ensures { result ≡ same_answer (fused_says FormatK.Q4K x.now block_of_ones n) number sum }
{
    let mut block = [0x11u8; 144];
    // d = 1, dmin = 0, and the scales that are not 1 yet
    block[..8].copy_from_slice(&[0x00, 0x3C, 0x00, 0x00, 1, 1, 1, 1]);
    same_answer(
        dots_fused::canonical_dot_q4k_fused(x, &block, n),
        number,
        sum,
    )
}
