// The two rules that round, and what a reading is multiplied by before it is rounded.
ghost use Rattle.std.specs.Prelude.{◌≡◌, ◌<◌, true, ◌⊎◌, pos};
ghost use Rattle.std.specs.Float.{binary32};
ghost use Rattle.std.specs.Float.Ieee.{of_bits, lt};
ghost use Rattle.numbers.specs.Steps.{nought, truncated};
ghost use Rattle.readings.specs.Readings.{inverse, held, quant_q8, quant_q40};

use crate::ends::{larger_of, smaller_of};
use numbers::magnitude_of;

// The whole part of c, which is +0.0 or above it, and below 256. From 2^23 on an f32 has no fraction, so adding 2^23
// rounds c to a whole number next to it, and taking 2^23 off again is exact. Above c that is one too large.
fn small_whole(c: f32) -> i32
    requires { ((c ≡ nought) ⊎ (lt nought c ≡ true)) × (lt c (of_bits binary32 0x4380_0000) ≡ true) }
    ensures { result ≡ truncated c }
{
    let near = (c + 8388608.0) - 8388608.0;
    near as i32 - if c < near { 1 } else { 0 }
}

// The whole part of t, held within 0 and `most`; 0 for a NaN.
fn held_whole(t: f32, most: u8) -> i32
    requires { 0 < most }
    ensures { result ≡ held (pos 0) (pos most) (truncated t) }
{
    small_whole(smaller_of(most as f32, larger_of(0.0, t)))
}

// The Q8 quant of p, a reading times the inverse. The rule is the same on both sides of 0, so it is the magnitude that
// is rounded.
pub fn round_q8(p: f32) -> i8
    ensures { result ≡ quant_q8 p }
{
    let q = held_whole(magnitude_of(p) + 0.5, 127);
    let signed = if p < 0.0 { 0 - q } else { q };
    signed as i8
}

// The Q4_0 quant of p, a reading times the inverse.
pub fn round_q4_0(p: f32) -> u8
    ensures { pos result ≡ quant_q40 p }
{
    held_whole(p + 8.5, 15) as u8
}

// What a reading is multiplied by, where d is the block's scale.
pub fn inverse_of(d: f32) -> f32
    ensures { result ≡ inverse d }
{
    if d == 0.0 { 0.0 } else { 1.0 / d }
}
