// The converters between the two orders of Q4_0. A payload is how many places the output has and how many packed bytes
// there are, the bytes, the number that says no, 0 where there is none, and what then stands in the output.
use crate::block_quantizers::STOOD;
use crate::payloads::judge_output;
use refusals::Refusal;
use replay_answers::{Finding, same_bytes};

// The places of an output at most: two blocks, and one place more.
const ROOM: usize = 37;

fn judge_convert<F: Fn(&[u8], &mut [u8]) -> Result<(), Refusal>>(
    convert: F,
    payload: &[u8],
) -> Finding
    requires { F.IsAlwaysCallable convert }
{
    let mut out = [STOOD; ROOM];
    judge_output(
        convert,
        |left, out| same_bytes(left, out),
        1,
        &mut out,
        payload,
    )
}

// A stored answer of the call that has this tag.
pub fn judge_block_converter(tag: u8, payload: &[u8]) -> Finding {
    match tag {
        39 => judge_convert(|bytes, out| converters::q4_0_to_ggml(bytes, out), payload),
        40 => judge_convert(|bytes, out| converters::q4_0_from_ggml(bytes, out), payload),
        _ => Finding::Unknown,
    }
}
