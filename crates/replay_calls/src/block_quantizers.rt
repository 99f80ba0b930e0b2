// The block quantizers. A payload is how many places the output has and how many readings there are, the readings, the
// number that says no, 0 where there is none, how many blocks' scales were flushed and how many were sent to infinity, 0
// where there is a number, and what then stands in the output.
ghost use Rattle.std.specs.Prelude.{◌≤◌};

use crate::given_scales::judge_given;
use crate::payloads::floats_in;
use quantizers::Lost;
use refusals::Refusal;
use replay_answers::{Finding, same_bytes, u32_at};

// The places of an output at most: two blocks of Q8_0, and one place more.
const ROOM: usize = 69;
// What stands in each of them before the call.
pub(crate) const STOOD: u8 = 0xEE;
// The readings at most: two blocks, and one reading more.
const READINGS: usize = 65;

// Whether a quantizer says this number or, where the number is 0, that so many scales were lost.
fn says_lost(ours: Result<Lost, Refusal>, number: u32, lost: Lost) -> bool {
    match ours {
        Ok(counts) => {
            number == 0 && counts.flushed == lost.flushed && counts.infinite == lost.infinite
        }
        Err(refusal) => refusal.number() == number,
    }
}

// What a quantizer says and leaves in its output, beside what is stored: `agrees` calls it, and says whether it says
// what is stored in `told` bytes behind the readings.
pub(crate) fn judge_quantized<F: Fn(&[f32], &mut [u8], &[u8]) -> bool>(
    agrees: F,
    told: usize,
    payload: &[u8],
) -> Finding
    requires first { F.IsAlwaysCallable agrees }
    requires second { told ≤ 12 }
{
    let room = u32_at(payload, 0) as usize;
    let end = 8 + 4 * u32_at(payload, 4) as usize;
    let left = end + told;
    if room > ROOM || payload.len() != left + room {
        return Finding::Malformed;
    }
    let mut data = [0.0f32; READINGS];
    let Some(data) = floats_in(&payload[8..end], &mut data) else {
        return Finding::Malformed;
    };
    let mut out = [STOOD; ROOM];
    let out = &mut out[..room];
    if !agrees(data, out, &payload[end..left]) {
        return Finding::Differs;
    }
    Finding::of_same(same_bytes(&payload[left..], out))
}

// The two counts behind a number.
fn read_lost(told: &[u8]) -> Lost {
    Lost {
        flushed: u32_at(told, 4) as usize,
        infinite: u32_at(told, 8) as usize,
    }
}

fn judge_quantize<F: Fn(&[f32], &mut [u8]) -> Result<Lost, Refusal>>(
    quantize: F,
    payload: &[u8],
) -> Finding
    requires { F.IsAlwaysCallable quantize }
{
    judge_quantized(
        |data, out, told| says_lost(quantize(data, out), u32_at(told, 0), read_lost(told)),
        12,
        payload,
    )
}

// A stored answer of the call that has this tag.
pub fn judge_block_quantizer(tag: u8, payload: &[u8]) -> Finding {
    match tag {
        11 => judge_quantize(|data, out| quantizers::quantize_q4_0(data, out), payload),
        12 => judge_quantize(|data, out| quantizers::quantize_q8_0(data, out), payload),
        37 => judge_quantize(
            |data, out| quantizers::quantize_q4_0_ggml(data, out),
            payload,
        ),
        42 => judge_given(payload),
        _ => Finding::Unknown,
    }
}
