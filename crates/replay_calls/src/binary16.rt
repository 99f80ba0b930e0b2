// Binary16. A payload is the half and the bits of its float, or the bits of a float, its half, and how the float fared:
// 0 exact, 1 cut, 2 flushed, 3 sent to infinity.
use c_answers::number_of_how;
use replay_answers::Finding;

// A stored answer of the call that has this tag.
pub fn judge_binary16(tag: u8, payload: &[u8]) -> Finding {
    match tag {
        0 => judge_f16_to_f32(payload),
        1 => judge_f32_to_f16(payload),
        _ => Finding::Unknown,
    }
}

fn judge_f16_to_f32(payload: &[u8]) -> Finding {
    if payload.len() != 6 {
        return Finding::Malformed;
    }
    let half = numbers::le_u16(payload[0], payload[1]);
    let answer = numbers::le_u32(payload[2], payload[3], payload[4], payload[5]);
    Finding::of_floats(halves::f16_to_f32(half), halves::of_bits(answer))
}

fn judge_f32_to_f16(payload: &[u8]) -> Finding {
    if payload.len() != 7 {
        return Finding::Malformed;
    }
    let bits = numbers::le_u32(payload[0], payload[1], payload[2], payload[3]);
    let answer = numbers::le_u16(payload[4], payload[5]);
    let fared = payload[6] as u32;
    let made = halves::f32_to_f16(bits);
    let how = made.how;
    Finding::of_same(made.bits == answer && number_of_how(how) == fared)
}
