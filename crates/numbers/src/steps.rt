// The steps from readings to small integers and back, each of which Rust writes as `abs` or `as`.
ghost use Rattle.std.specs.Prelude.{◌≡◌};
ghost use Rattle.std.specs.Float.{binary32};
ghost use Rattle.std.specs.Float.Ieee.{of_int};
ghost use Rattle.numbers.specs.Steps.{magnitude};

// The magnitude of v. A zero keeps its sign and a NaN stays, which no comparison tells.
pub fn magnitude_of(v: f32) -> f32
    ensures { result ≡ magnitude v }
{
    if v < 0.0 { -v } else { v }
}

// The f32 nearest to n, and where two are as near the one whose last digit is even. The upper half of n, which has its
// sign, and the lower half are floats exactly, and so is the upper half times 2^16: only the sum rounds.
pub fn whole_to_f32(n: i32) -> f32
    ensures { result ≡ of_int binary32 n }
{
    (n >> 16) as f32 * 65536.0 + (n & 0xffff) as f32
}
