// The formats with 32 values to a block: a scale, and 32 whole numbers that it multiplies.
ghost use Rattle.std.specs.Prelude.{◌≡◌, pos, length, get_or};
ghost use Rattle.std.specs.Float.{binary32};
ghost use Rattle.std.specs.Float.Ieee.{mul, of_int};
ghost use Rattle.memory.specs.Lists.{table};
ghost use Rattle.layouts.specs.Formats.{bytes32};
ghost use Rattle.layouts.specs.Of32.{value_iq4_nl, quant32, value32};

use layouts::Format32;

// A run of 16 whole numbers, each times the scale s.
pub fn scale_run(q: &[i8], s: f32, out: &mut [f32])
    requires { (length q.now ≡ 16) × (length out.old ≡ 16) }
    ensures { out.new
        ≡ table (λ l. mul binary32 s (of_int binary32 (get_or q.now l (pos 0)))) 16 }
{
    for l in 0..16usize {
        out[l] = s * q[l] as f32;
    }
}

// 32 whole numbers, each times the scale s, a run of 16 a turn.
fn scale_quants(q: &[i8], s: f32, out: &mut [f32])
    requires { (length q.now ≡ 32) × (length out.old ≡ 32) }
    ensures { out.new
        ≡ table (λ j. mul binary32 s (of_int binary32 (get_or q.now j (pos 0)))) 32 }
{
    for e in 0..2usize {
        let at = 16 * e;
        let end = at + 16;
        scale_run(&q[at..end], s, &mut out[at..end]);
    }
}

// IQ4_NL's sixteen values, each times the scale s.
fn scaled_values(s: f32) -> [f32; 16]
    ensures { result ≡ table (λ n. mul binary32 s (of_int binary32 (value_iq4_nl n))) 16 }
{
    let values = layouts::values_iq4_nl();
    let mut scaled = [0.0f32; 16];
    for n in 0..16usize {
        scaled[n] = s * values[n] as f32;
    }
    scaled
}

// An IQ4_NL block's 32 values: a nibble picks among the sixteen, which are multiplied by the scale once. To pick whole
// numbers first would have vectors wait for them, a byte at a time.
fn decode_picked(block: &[u8], s: f32, out: &mut [f32])
    requires { (length block.now ≡ 18) × (length out.old ≡ 32) }
    ensures { out.new
        ≡ table (λ j. mul binary32 s (of_int binary32 (quant32 Format32.Iq4Nl block.now j))) 32 }
{
    let scaled = scaled_values(s);
    for k in 0..16usize {
        let b = block[2 + k];
        out[k] = scaled[(b % 16) as usize];
        out[k + 16] = scaled[(b / 16) as usize];
    }
}

// One block's 32 values.
pub fn decode_32(format: Format32, block: &[u8], out: &mut [f32])
    requires { (length block.now ≡ bytes32 format) × (length out.old ≡ 32) }
    ensures { out.new ≡ table (value32 format block.now) 32 }
{
    let s = halves::f16_to_f32(numbers::le_u16(block[0], block[1]));
    let q = match format {
        Format32::Q40 => layouts::quants_q4_0(block),
        Format32::Q40Ggml => layouts::quants_q4_0_ggml(block),
        Format32::Q50 => layouts::quants_q5_0(block),
        Format32::Q80 => layouts::quants_q8_0(block),
        Format32::Iq4Nl => return decode_picked(block, s, out),
    };
    scale_quants(&q, s, out);
}

// One Q8_0 block's 32 values, for a loop over such blocks alone. The whole numbers go through an array, so that all are
// read before a value is written.
pub fn decode_q8_0(block: &[u8], out: &mut [f32])
    requires { (length block.now ≡ 34) × (length out.old ≡ 32) }
    ensures { out.new ≡ table (value32 Format32.Q80 block.now) 32 }
{
    let s = halves::f16_to_f32(numbers::le_u16(block[0], block[1]));
    let q = layouts::quants_q8_0(block);
    for k in 0..32usize {
        out[k] = s * q[k] as f32;
    }
}
