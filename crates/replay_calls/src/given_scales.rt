// The block quantizer that is given its scale. A payload is the scale's bits, how many places the output has and how many
// readings there are, the readings, the number that says no, 0 where there is none, and what then stands in the output.
use crate::block_quantizers::judge_quantized;
use replay_answers::{Finding, says, u32_at};

pub(crate) fn judge_given(payload: &[u8]) -> Finding {
    let scale = u32_at(payload, 0);
    if payload.len() < 4 || scale > 0xFFFF {
        return Finding::Malformed;
    }
    let scale = scale as u16;
    judge_quantized(
        |data, out, told| says(
            quantizers::quantize_iq4_nl(data, scale, out),
            u32_at(told, 0),
        ),
        4,
        &payload[4..],
    )
}
