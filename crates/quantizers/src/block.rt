// One block: the scale it gets, the scale as it is stored, and its quants.
ghost use Rattle.std.specs.Prelude.{◌≡◌, ◌+◌, ◌*◌, pos, length, get_or};
ghost use Rattle.std.specs.Float.{nan, binary32};
ghost use Rattle.std.specs.Float.Ieee.{mul};
ghost use Rattle.memory.specs.Lists.{table};
ghost use Rattle.numbers.specs.Fields.{byte_of};
ghost use Rattle.layouts.specs.Formats.{bytes32};
ghost use Rattle.readings.specs.Readings.{quant_q8, quant_q40};
ghost use Rattle.nearest.specs.Nearest.{quant_iq4_nl};
ghost use Rattle.quantizers.specs.Blocks.{format_of, scale_of, stored_scale, nibbles, byte_at};
ghost use Rattle.quantizers.specs.Lost.{scale_fares};

use crate::target::Target;
use halves::{How, Narrowed};
use nearest::nibbles_iq4_nl;

// The scale that a block gets: d.
fn scale_of(target: Target, x: &[f32]) -> f32
    requires { length x.now ≡ 32 }
    ensures { result ≡ scale_of target x.now }
{
    match target {
        Target::Q40 | Target::Q40Ggml => readings::largest_value(x) / -8.0,
        Target::Q80 => readings::scale_q8(x),
        Target::Iq4Nl(scale) => halves::f16_to_f32(scale),
    }
}

// The scale as it is stored, a binary16, and how it fares. One that is given stays as it is.
fn stored_scale(target: Target, d: f32) -> Narrowed
    ensures { result ≡ stored_scale target d }
{
    match target {
        Target::Q40 | Target::Q40Ggml | Target::Q80 => halves::f32_to_f16(halves::bits_of(d)),
        Target::Iq4Nl(scale) => Narrowed {
            bits: scale,
            how: How::Exact,
        },
    }
}

// The quants of two readings, scaled, in one byte of Q4_0.
fn nibbles_of(first: f32, second: f32) -> u8
    ensures { result ≡ nibbles (quant_q40 first) (quant_q40 second) }
{
    let low = readings::round_q4_0(first);
    let high = readings::round_q4_0(second);
    low + 16 * high
}

// Q4_0's quants: those of readings 2k and 2k+1 share byte k.
fn write_quants_q4_0(x: &[f32], inverse: f32, out: &mut [u8])
    requires { (length x.now ≡ 32) × (length out.old ≡ 16) }
    ensures { out.new
        ≡ table (λ k. nibbles (quant_q40 (mul binary32 (get_or x.now (2 * k) nan) inverse))
        (quant_q40 (mul binary32 (get_or x.now (2 * k + 1) nan) inverse))) 16 }
{
    for k in 0..16usize {
        out[k] = nibbles_of(x[2 * k] * inverse, x[2 * k + 1] * inverse);
    }
}

// The same in GGML's order: those of readings k and k+16 share byte k.
fn write_quants_q4_0_ggml(x: &[f32], inverse: f32, out: &mut [u8])
    requires { (length x.now ≡ 32) × (length out.old ≡ 16) }
    ensures { out.new
        ≡ table (λ k. nibbles (quant_q40 (mul binary32 (get_or x.now k nan) inverse))
        (quant_q40 (mul binary32 (get_or x.now (k + 16) nan) inverse))) 16 }
{
    for k in 0..16usize {
        out[k] = nibbles_of(x[k] * inverse, x[k + 16] * inverse);
    }
}

// IQ4_NL's nibbles: those of readings k and k+16 share byte k.
fn write_quants_iq4_nl(x: &[f32], inverse: f32, out: &mut [u8])
    requires { (length x.now ≡ 32) × (length out.old ≡ 16) }
    ensures { out.new
        ≡ table (λ k. nibbles (pos (quant_iq4_nl (mul binary32 (get_or x.now k nan) inverse)))
        (pos (quant_iq4_nl (mul binary32 (get_or x.now (k + 16) nan) inverse)))) 16 }
{
    let n = nibbles_iq4_nl(x, inverse);
    for k in 0..16usize {
        out[k] = n[k] + 16 * n[k + 16];
    }
}

// Q8_0's quants, a signed byte each.
fn write_quants_q8_0(x: &[f32], inverse: f32, out: &mut [u8])
    requires { (length x.now ≡ 32) × (length out.old ≡ 32) }
    ensures { out.new
        ≡ table (λ k. byte_of (quant_q8 (mul binary32 (get_or x.now k nan) inverse))) 32 }
{
    for k in 0..32usize {
        out[k] = numbers::unsigned_byte(readings::round_q8(x[k] * inverse));
    }
}

// One block's bytes, and how its scale fares when it is stored.
pub fn quantize_block(target: Target, x: &[f32], out: &mut [u8]) -> How
    requires { (length x.now ≡ 32) × (length out.old ≡ bytes32 (format_of target)) }
    ensures { (result ≡ scale_fares target x.now)
        × (out.new ≡ table (byte_at target x.now) (bytes32 (format_of target))) }
{
    let d = scale_of(target, x);
    let inverse = readings::inverse_of(d);
    let stored = stored_scale(target, d);
    let half = stored.bits.to_le_bytes();
    out[0] = half[0];
    out[1] = half[1];
    match target {
        Target::Q40 => write_quants_q4_0(x, inverse, &mut out[2..18]),
        Target::Q40Ggml => write_quants_q4_0_ggml(x, inverse, &mut out[2..18]),
        Target::Q80 => write_quants_q8_0(x, inverse, &mut out[2..34]),
        Target::Iq4Nl(_) => write_quants_iq4_nl(x, inverse, &mut out[2..18]),
    }
    stored.how
}
