// The block decoders.
ghost use Rattle.std.specs.Prelude.{◌≡◌};
ghost use Rattle.decoders.specs.Says.{dequantize_says};
ghost use Rattle.c_answers.specs.Answers.{numbered};

use c_answers::number_of;
use layouts::{Format, Format32, FormatK};

// `decoders::dequantize_q4_0`, for C.
#[unsafe(no_mangle)]
pub extern "C" fn jambharrow_dequantize_q4_0(bytes: &[u8], out: &mut [f32]) -> u32
    ensures { (result, out.new)
        ≡ numbered (dequantize_says (Format.Of32 Format32.Q40) bytes.now out.old) }
{
    number_of(decoders::dequantize_q4_0(bytes, out))
}

// `decoders::dequantize_q4_0_ggml`, for C.
#[unsafe(no_mangle)]
pub extern "C" fn jambharrow_dequantize_q4_0_ggml(bytes: &[u8], out: &mut [f32]) -> u32
    ensures { (result, out.new)
        ≡ numbered (dequantize_says (Format.Of32 Format32.Q40Ggml) bytes.now out.old) }
{
    number_of(decoders::dequantize_q4_0_ggml(bytes, out))
}

// `decoders::dequantize_q5_0`, for C.
#[unsafe(no_mangle)]
pub extern "C" fn jambharrow_dequantize_q5_0(bytes: &[u8], out: &mut [f32]) -> u32
    ensures { (result, out.new)
        ≡ numbered (dequantize_says (Format.Of32 Format32.Q50) bytes.now out.old) }
{
    number_of(decoders::dequantize_q5_0(bytes, out))
}

// `decoders::dequantize_q8_0`, for C.
#[unsafe(no_mangle)]
pub extern "C" fn jambharrow_dequantize_q8_0(bytes: &[u8], out: &mut [f32]) -> u32
    ensures { (result, out.new)
        ≡ numbered (dequantize_says (Format.Of32 Format32.Q80) bytes.now out.old) }
{
    number_of(decoders::dequantize_q8_0(bytes, out))
}

// `decoders::dequantize_iq4_nl`, for C.
#[unsafe(no_mangle)]
pub extern "C" fn jambharrow_dequantize_iq4_nl(bytes: &[u8], out: &mut [f32]) -> u32
    ensures { (result, out.new)
        ≡ numbered (dequantize_says (Format.Of32 Format32.Iq4Nl) bytes.now out.old) }
{
    number_of(decoders::dequantize_iq4_nl(bytes, out))
}

// `decoders::dequantize_q4_k`, for C.
#[unsafe(no_mangle)]
pub extern "C" fn jambharrow_dequantize_q4_k(bytes: &[u8], out: &mut [f32]) -> u32
    ensures { (result, out.new)
        ≡ numbered (dequantize_says (Format.OfK FormatK.Q4K) bytes.now out.old) }
{
    number_of(decoders::dequantize_q4_k(bytes, out))
}

// `decoders::dequantize_q5_k`, for C.
#[unsafe(no_mangle)]
pub extern "C" fn jambharrow_dequantize_q5_k(bytes: &[u8], out: &mut [f32]) -> u32
    ensures { (result, out.new)
        ≡ numbered (dequantize_says (Format.OfK FormatK.Q5K) bytes.now out.old) }
{
    number_of(decoders::dequantize_q5_k(bytes, out))
}

// `decoders::dequantize_q6_k`, for C.
#[unsafe(no_mangle)]
pub extern "C" fn jambharrow_dequantize_q6_k(bytes: &[u8], out: &mut [f32]) -> u32
    ensures { (result, out.new)
        ≡ numbered (dequantize_says (Format.OfK FormatK.Q6K) bytes.now out.old) }
{
    number_of(decoders::dequantize_q6_k(bytes, out))
}
