// A float and its bit pattern, NaN included: `to_bits` and `from_bits` ask that there is none.
ghost use Rattle.std.specs.Prelude.{◌≡◌};
ghost use Rattle.std.specs.Float.{binary32};
ghost use Rattle.std.specs.Float.Ieee.{of_bits, to_bits};

// The bits of x; of any NaN, 7FC00000.
pub fn bits_of(x: f32) -> u32
    ensures { result ≡ to_bits binary32 x }
{
    if x != x {
        return 0x7FC0_0000;
    }
    f32::to_bits(x)
}

// The float of a bit pattern.
pub fn of_bits(bits: u32) -> f32
    ensures { result ≡ of_bits binary32 bits }
{
    if bits % 0x8000_0000 > 0x7F80_0000 {
        return 0.0 / 0.0;
    }
    f32::from_bits(bits)
}
