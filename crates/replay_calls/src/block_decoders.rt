// The block decoders. A payload is how many places the output has and how many packed bytes there are, the bytes, the
// number that says no, 0 where there is none, and what then stands in the output.
use crate::payloads::judge_output;
use refusals::Refusal;
use replay_answers::{Finding, STOOD, same_floats};

// The places of an output at most: two blocks of a K format, and one place more.
const ROOM: usize = 513;

fn judge_dequantize<F: Fn(&[u8], &mut [f32]) -> Result<(), Refusal>>(
    decode: F,
    payload: &[u8],
) -> Finding
    requires { F.IsAlwaysCallable decode }
{
    let mut out = [STOOD; ROOM];
    judge_output(
        decode,
        |left, out| same_floats(left, out),
        4,
        &mut out,
        payload,
    )
}

// A stored answer of the call that has this tag.
pub fn judge_block_decoder(tag: u8, payload: &[u8]) -> Finding {
    match tag {
        2 => judge_dequantize(|bytes, out| decoders::dequantize_q4_0(bytes, out), payload),
        3 => judge_dequantize(|bytes, out| decoders::dequantize_q5_0(bytes, out), payload),
        4 => judge_dequantize(|bytes, out| decoders::dequantize_q8_0(bytes, out), payload),
        5 => judge_dequantize(|bytes, out| decoders::dequantize_q4_k(bytes, out), payload),
        6 => judge_dequantize(|bytes, out| decoders::dequantize_q6_k(bytes, out), payload),
        29 => judge_dequantize(|bytes, out| decoders::dequantize_q5_k(bytes, out), payload),
        36 => judge_dequantize(
            |bytes, out| decoders::dequantize_q4_0_ggml(bytes, out),
            payload,
        ),
        41 => judge_dequantize(
            |bytes, out| decoders::dequantize_iq4_nl(bytes, out),
            payload,
        ),
        _ => Finding::Unknown,
    }
}
