// The stored answers of the layers, judged. A payload is batch, in_feat and out_feat, how many readings, packed bytes,
// places of output and of scratch there are, the readings, the bytes, the number that says no, 0 where there is none,
// and what then stands in the output and in scratch.
use layers_cpu::{
    linear_iq4_nl_cpu, linear_q4_0_cpu, linear_q4_0_ggml_cpu, linear_q4_k_cpu, linear_q6_k_cpu,
};
use layers_fused::{linear_q4_k_fused, linear_q5_k_fused, linear_q6_k_fused};
use layers_integer::{
    linear_q4_k_integer, linear_q4_k_integer_rs, linear_q5_k_integer, linear_q5_k_integer_rs,
    linear_q6_k_integer, linear_q6_k_integer_rs,
};
use layers_shape::Shape;
use refusals::Refusal;
use replay_answers::{Finding, STOOD, read_floats, same_floats, says, u32_at};

// The floats of a slice at most: those of a row of one block more than a chunk has.
const MOST: usize = 8_448;

// What a layer says of readings whose bits stand in these bytes, read into x, and leaves in its memory, beside what is
// stored.
fn judge_memory<F: Fn(&[f32], &[u8], &mut [f32], &mut [f32], Shape) -> Result<(), Refusal>>(
    layer: F,
    bytes: &[u8],
    x: &mut [f32],
    w: &[u8],
    y: &mut [f32],
    scratch: &mut [f32],
    s: Shape,
    number: u32,
    y_left: &[u8],
    scratch_left: &[u8],
) -> Finding
    requires { F.IsAlwaysCallable layer }
{
    read_floats(bytes, x);
    if !says(layer(x, w, y, scratch, s), number) {
        return Finding::Differs;
    }
    if !same_floats(y_left, y) {
        return Finding::Differs;
    }
    Finding::of_same(same_floats(scratch_left, scratch))
}

fn shape_of(payload: &[u8]) -> Shape {
    Shape::of(
        u32_at(payload, 0) as usize,
        u32_at(payload, 4) as usize,
        u32_at(payload, 8) as usize,
    )
}

fn judge<F: Fn(&[f32], &[u8], &mut [f32], &mut [f32], Shape) -> Result<(), Refusal>>(
    layer: F,
    payload: &[u8],
) -> Finding
    requires { F.IsAlwaysCallable layer }
{
    let x_len = u32_at(payload, 12) as usize;
    let w_len = u32_at(payload, 16) as usize;
    let y_len = u32_at(payload, 20) as usize;
    let scratch_len = u32_at(payload, 24) as usize;
    if x_len > MOST || y_len > MOST || scratch_len > MOST {
        return Finding::Malformed;
    }
    let w_at = 28 + 4 * x_len;
    let end = w_at + w_len;
    let left = end + 4;
    let scratch_at = left + 4 * y_len;
    if payload.len() != scratch_at + 4 * scratch_len {
        return Finding::Malformed;
    }
    let mut x = [0.0f32; MOST];
    let mut y = [STOOD; MOST];
    let mut scratch = [STOOD; MOST];
    judge_memory(
        layer,
        &payload[28..w_at],
        &mut x[..x_len],
        &payload[w_at..end],
        &mut y[..y_len],
        &mut scratch[..scratch_len],
        shape_of(payload),
        u32_at(payload, end),
        &payload[left..scratch_at],
        &payload[scratch_at..],
    )
}

// A stored answer of a layer.
#[derive(Clone, Copy)]
struct Stored<'a> {
    payload: &'a [u8],
}

impl<'a> Stored<'a> {
    // Of a layer that takes no scratch.
    fn without_scratch<
        F: Fn(&[f32], &[u8], &mut [f32], usize, usize, usize) -> Result<(), Refusal>,
    >(self, layer: F) -> Finding
        requires { F.IsAlwaysCallable layer }
    {
        judge(
            |x, w, y, _, s| layer(x, w, y, s.batch, s.in_feat, s.out_feat),
            self.payload,
        )
    }

    // Of a layer that takes scratch, behind its output.
    fn with_scratch<
        F: Fn(&[f32], &[u8], &mut [f32], &mut [f32], usize, usize, usize) -> Result<(), Refusal>,
    >(self, layer: F) -> Finding
        requires { F.IsAlwaysCallable layer }
    {
        judge(
            |x, w, y, scratch, s| layer(x, w, y, scratch, s.batch, s.in_feat, s.out_feat),
            self.payload,
        )
    }
}

// A stored answer of the layer that has this tag.
pub fn judge_layer(tag: u8, payload: &[u8]) -> Finding {
    let stored = Stored { payload };
    match tag {
        19 => stored.without_scratch(|x, w, y, b, i, o| linear_q4_k_fused(x, w, y, b, i, o)),
        20 => stored.without_scratch(|x, w, y, b, i, o| linear_q6_k_fused(x, w, y, b, i, o)),
        21 => stored.without_scratch(|x, w, y, b, i, o| linear_q4_k_integer(x, w, y, b, i, o)),
        22 => stored.without_scratch(|x, w, y, b, i, o| linear_q6_k_integer(x, w, y, b, i, o)),
        23 => stored.without_scratch(|x, w, y, b, i, o| linear_q4_k_integer_rs(x, w, y, b, i, o)),
        24 => stored.without_scratch(|x, w, y, b, i, o| linear_q6_k_integer_rs(x, w, y, b, i, o)),
        25 => stored.with_scratch(|x, w, y, t, b, i, o| linear_q4_k_cpu(x, w, y, t, b, i, o)),
        26 => stored.with_scratch(|x, w, y, t, b, i, o| linear_q6_k_cpu(x, w, y, t, b, i, o)),
        27 => stored.with_scratch(|x, w, y, t, b, i, o| linear_q4_0_cpu(x, w, y, t, b, i, o)),
        33 => stored.without_scratch(|x, w, y, b, i, o| linear_q5_k_fused(x, w, y, b, i, o)),
        34 => stored.without_scratch(|x, w, y, b, i, o| linear_q5_k_integer(x, w, y, b, i, o)),
        35 => stored.without_scratch(|x, w, y, b, i, o| linear_q5_k_integer_rs(x, w, y, b, i, o)),
        38 => stored.with_scratch(|x, w, y, t, b, i, o| linear_q4_0_ggml_cpu(x, w, y, t, b, i, o)),
        43 => stored.with_scratch(|x, w, y, t, b, i, o| linear_iq4_nl_cpu(x, w, y, t, b, i, o)),
        _ => Finding::Unknown,
    }
}
