// The block quantizers.
ghost use Rattle.std.specs.Prelude.{◌≡◌};
ghost use Rattle.quantizers.specs.Says.{quantize_says, quantize_given_says};
ghost use Rattle.c_answers.specs.Answers.{numbered};
ghost use Rattle.c_answers.specs.Lost.{numbered_lost};

use c_answers::{number_and_lost, number_of};
use quantizers::Target;

// `quantizers::quantize_q4_0`, for C.
#[unsafe(no_mangle)]
pub extern "C" fn jambharrow_quantize_q4_0(x: &[f32], out: &mut [u8], lost: &mut [usize; 2]) -> u32
    ensures { (result, (out.new, lost.new))
        ≡ numbered_lost (quantize_says Target.Q40 x.now out.old) lost.old }
{
    number_and_lost(quantizers::quantize_q4_0(x, out), lost)
}

// `quantizers::quantize_q4_0_ggml`, for C.
#[unsafe(no_mangle)]
pub extern "C" fn jambharrow_quantize_q4_0_ggml(
    x: &[f32],
    out: &mut [u8],
    lost: &mut [usize; 2],
) -> u32
    ensures { (result, (out.new, lost.new))
        ≡ numbered_lost (quantize_says Target.Q40Ggml x.now out.old) lost.old }
{
    number_and_lost(quantizers::quantize_q4_0_ggml(x, out), lost)
}

// `quantizers::quantize_q8_0`, for C.
#[unsafe(no_mangle)]
pub extern "C" fn jambharrow_quantize_q8_0(x: &[f32], out: &mut [u8], lost: &mut [usize; 2]) -> u32
    ensures { (result, (out.new, lost.new))
        ≡ numbered_lost (quantize_says Target.Q80 x.now out.old) lost.old }
{
    number_and_lost(quantizers::quantize_q8_0(x, out), lost)
}

// `quantizers::quantize_iq4_nl`, for C.
#[unsafe(no_mangle)]
pub extern "C" fn jambharrow_quantize_iq4_nl(x: &[f32], scale: u16, out: &mut [u8]) -> u32
    ensures { (result, out.new)
        ≡ numbered (quantize_given_says scale x.now out.old) }
{
    number_of(quantizers::quantize_iq4_nl(x, scale, out))
}
