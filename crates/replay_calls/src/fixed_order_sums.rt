// The fixed-order sums.
use crate::payloads::{floats_in, read_rows};
use refusals::Refusal;
use replay_answers::{Finding, same_bits, same_floats, u32_at};

// The places of a row at most: one more than a chunk has.
const MOST: usize = 8_193;

// A payload is n, how many readings and weights there are, these, the number that says no, 0 where there is none, and
// the value. A call that takes no n or no weights has 0 there.
fn judge_rows<F: Fn(&[f32], &[f32], usize) -> Result<f32, Refusal>>(
    call: F,
    payload: &[u8],
) -> Finding
    requires { F.IsAlwaysCallable call }
{
    let Some(rows) = read_rows(payload, 4) else {
        return Finding::Malformed;
    };
    let mut x = [0.0f32; MOST];
    let Some(x) = floats_in(rows.x, &mut x) else {
        return Finding::Malformed;
    };
    let mut w = [0.0f32; MOST];
    let Some(w) = floats_in(rows.w, &mut w) else {
        return Finding::Malformed;
    };
    Finding::of_answer(call(x, w, rows.n), rows.number, rows.value)
}

// A payload is how long the list is, the list, its sum, and the list that is left.
fn judge_canonical_combine(payload: &[u8]) -> Finding {
    let len = u32_at(payload, 0) as usize;
    let end = 4 + 4 * len;
    let left = end + 4;
    if payload.len() != left + 4 * len {
        return Finding::Malformed;
    }
    let mut list = [0.0f32; MOST];
    let Some(list) = floats_in(&payload[4..end], &mut list) else {
        return Finding::Malformed;
    };
    let sum = halves::of_bits(u32_at(payload, end));
    if !same_bits(sums_tree::canonical_combine(list), sum) {
        return Finding::Differs;
    }
    Finding::of_same(same_floats(&payload[left..], list))
}

// A stored answer of the call that has this tag.
pub fn judge_fixed_order_sum(tag: u8, payload: &[u8]) -> Finding {
    match tag {
        7 => judge_rows(|x, w, _| sums_lanes::canonical_chunk(x, w), payload),
        8 => judge_canonical_combine(payload),
        9 => judge_rows(|x, w, n| sums::canonical_dot_pub(x, w, n), payload),
        10 => judge_rows(|x, _, n| sums::canonical_sum_pub(x, n), payload),
        _ => Finding::Unknown,
    }
}
