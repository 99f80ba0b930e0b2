// Binary16, in which every packed block keeps its scales: widened as IEEE 754 has it, narrowed as quant.rs does.
ghost use Rattle.std.specs.Prelude.{◌≡◌, ◌≤◌, ◌<◌, ◌*◌, ◌^◌, eqb};
ghost use Rattle.std.specs.Float.{binary32};
ghost use Rattle.std.specs.Float.Ieee.{round};
ghost use Rattle.halves.specs.Binary16.{widened, magnitude16};
ghost use Rattle.halves.specs.How.{narrowing};

use crate::how::{Narrowed, how_narrowed};

// The normal binary32 with the sign bit `sign`, the exponent field `exp` and the eleven leading digits `digits`.
fn normal(sign: u32, exp: u32, digits: u32) -> f32
    requires { (sign < 2) × (1 ≤ exp) × (exp < 255) × (1024 ≤ digits) × (digits < 2048) }
    ensures { result ≡ round binary32 (eqb sign 1) (digits * 2 ^ exp) (2 ^ 137) }
{
    f32::from_bits(sign * 0x8000_0000 + exp * 0x80_0000 + (digits - 1024) * 0x2000)
}

// A subnormal binary16 is a normal binary32: its digits are shifted up until the leading one stands at place 10, which
// takes as many places as there are zeros before it, less the 21 above place 10.
fn subnormal(sign: u32, mant: u32) -> f32
    requires { (sign < 2) × (0 < mant) × (mant < 1024) }
    ensures { result ≡ round binary32 (eqb sign 1) mant (2 ^ 24) }
{
    let up = mant.leading_zeros() - 21;
    normal(sign, 113 - up, mant << up)
}

// The binary32 of a binary16: the same number, with its sign; a NaN for a NaN.
pub fn f16_to_f32(half: u16) -> f32
    ensures { result ≡ widened half }
{
    let sign = (half / 32768) as u32;
    let exp = (half / 1024 % 32) as u32;
    let mant = (half % 1024) as u32;
    if exp == 31 {
        if mant == 0 {
            return f32::from_bits(sign * 0x8000_0000 + 0x7F80_0000);
        }
        return 0.0 / 0.0;
    }
    if exp == 0 {
        if mant == 0 {
            return f32::from_bits(sign * 0x8000_0000);
        }
        return subnormal(sign, mant);
    }
    normal(sign, exp + 112, mant + 1024)
}

// The exponent's field and the digits of a narrowed binary32, whose exponent's field is `exp` and whose ten leading
// digits are `mant`.
fn narrowed_magnitude(exp: u32, mant: u32) -> u16
    requires { mant < 1024 }
    ensures { (result ≡ magnitude16 exp mant) × (result < 32768) }
{
    if exp <= 112 {
        return 0;
    }
    if exp >= 143 {
        return 0x7C00;
    }
    ((exp - 112) * 1024 + mant) as u16
}

// The binary16 that quant.rs makes of a binary32, and how the number fared: the digits that do not fit are cut, below
// 2^-14 is a signed zero, and what is too large is an infinity, a NaN too. It works on bit patterns, since a NaN has a
// sign there alone.
pub fn f32_to_f16(bits: u32) -> Narrowed
    ensures { result ≡ narrowing bits }
{
    let sign = (bits / 0x8000_0000) as u16;
    let exp = bits / 0x80_0000 % 256;
    let mant = bits / 0x2000 % 1024;
    let half = sign * 0x8000 + narrowed_magnitude(exp, mant);
    Narrowed {
        bits: half,
        how: how_narrowed(bits),
    }
}
