// The converters between the two orders of Q4_0.
ghost use Rattle.std.specs.Prelude.{◌≡◌};
ghost use Rattle.converters.specs.Says.{convert_says};
ghost use Rattle.c_answers.specs.Answers.{numbered};

use c_answers::number_of;
use converters::Direction;

// `converters::q4_0_to_ggml`, for C.
#[unsafe(no_mangle)]
pub extern "C" fn jambharrow_q4_0_to_ggml(bytes: &[u8], out: &mut [u8]) -> u32
    ensures { (result, out.new)
        ≡ numbered (convert_says Direction.ToGgml bytes.now out.old) }
{
    number_of(converters::q4_0_to_ggml(bytes, out))
}

// `converters::q4_0_from_ggml`, for C.
#[unsafe(no_mangle)]
pub extern "C" fn jambharrow_q4_0_from_ggml(bytes: &[u8], out: &mut [u8]) -> u32
    ensures { (result, out.new)
        ≡ numbered (convert_says Direction.FromGgml bytes.now out.old) }
{
    number_of(converters::q4_0_from_ggml(bytes, out))
}
