// Activation blocks, and the dots of a packed block and an activation block.
use crate::blocks::{BLOCK, read_block, same_blocks};
use crate::payloads::floats_in;
use dots_activation::Q8Block;
use refusals::Refusal;
use replay_answers::{Finding, u32_at};

// The readings at most: one more than a block has.
const READINGS: usize = 257;

// The block that stands in a payload beside a refusal.
const NO_BLOCK: Q8Block = Q8Block {
    d: 0.0,
    qs: [0; 256],
    bsums: [0; 8],
    count: 0,
};

// A payload is how many readings there are, the readings, the number that says no, 0 where there is none, and the
// block, which is of zeros where there is none.
fn judge_quantize_block_q8(payload: &[u8]) -> Finding {
    let end = 4 + 4 * u32_at(payload, 0) as usize;
    let block = end + 4;
    if payload.len() != block + BLOCK {
        return Finding::Malformed;
    }
    let mut x = [0.0f32; READINGS];
    let Some(x) = floats_in(&payload[4..end], &mut x) else {
        return Finding::Malformed;
    };
    let number = u32_at(payload, end);
    let theirs = read_block(&payload[block..]);
    Finding::of_same(match dots_activation::quantize_block_q8(x) {
        Ok(ours) => number == 0 && same_blocks(ours, theirs),
        Err(refusal) => refusal.number() == number && same_blocks(NO_BLOCK, theirs),
    })
}

// A payload is n, how many packed bytes there are, these, the activation block, the number that says no, 0 where there
// is none, and the value.
fn judge_block_dot<F: Fn(&[u8], Q8Block, usize) -> Result<f32, Refusal>>(
    dot: F,
    payload: &[u8],
) -> Finding
    requires { F.IsAlwaysCallable dot }
{
    let n = u32_at(payload, 0) as usize;
    let count = u32_at(payload, 4) as usize;
    let block = 8 + count;
    let end = block + BLOCK;
    if payload.len() != end + 8 {
        return Finding::Malformed;
    }
    let number = u32_at(payload, end);
    let value = halves::of_bits(u32_at(payload, end + 4));
    let xq = read_block(&payload[block..end]);
    Finding::of_answer(dot(&payload[8..block], xq, n), number, value)
}

// A stored answer of the call that has this tag.
pub fn judge_activation_block(tag: u8, payload: &[u8]) -> Finding {
    match tag {
        13 => judge_quantize_block_q8(payload),
        14 => judge_block_dot(|w, xq, n| dots_integer::dot_q4k_q8_block(w, xq, n), payload),
        15 => judge_block_dot(|w, xq, n| dots_integer::dot_q6k_q8_block(w, xq, n), payload),
        31 => judge_block_dot(|w, xq, n| dots_integer::dot_q5k_q8_block(w, xq, n), payload),
        _ => Finding::Unknown,
    }
}
