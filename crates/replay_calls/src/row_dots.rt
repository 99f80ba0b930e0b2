// The dots of a row of readings and a row of packed blocks: in whole numbers, and fused.
use crate::payloads::{floats_in, read_rows};
use refusals::Refusal;
use replay_answers::Finding;

// The readings of a row at most: one more than a chunk has.
const MOST: usize = 8_193;

// A payload is n, how many readings and packed bytes there are, these, the number that says no, 0 where there is none,
// and the value.
fn judge_row<F: Fn(&[f32], &[u8], usize) -> Result<f32, Refusal>>(dot: F, payload: &[u8]) -> Finding
    requires { F.IsAlwaysCallable dot }
{
    let Some(rows) = read_rows(payload, 1) else {
        return Finding::Malformed;
    };
    let mut x = [0.0f32; MOST];
    let Some(x) = floats_in(rows.x, &mut x) else {
        return Finding::Malformed;
    };
    Finding::of_answer(dot(x, rows.w, rows.n), rows.number, rows.value)
}

// A stored answer of the call that has this tag.
pub fn judge_row_dot(tag: u8, payload: &[u8]) -> Finding {
    match tag {
        16 => judge_row(
            |x, w, n| dots_integer_row::integer_dot_q4k(x, w, n),
            payload,
        ),
        17 => judge_row(
            |x, w, n| dots_fused::canonical_dot_q4k_fused(x, w, n),
            payload,
        ),
        18 => judge_row(|x, w, n| dots_fused::q6k_fused_f32_dot(x, w, n), payload),
        30 => judge_row(
            |x, w, n| dots_fused::canonical_dot_q5k_fused(x, w, n),
            payload,
        ),
        32 => judge_row(
            |x, w, n| dots_integer_row::integer_dot_q5k(x, w, n),
            payload,
        ),
        _ => Finding::Unknown,
    }
}
