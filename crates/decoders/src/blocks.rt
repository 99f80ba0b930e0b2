// The block decoders: every block's values, each block's in its own places in the middle of the output.
ghost use Rattle.std.specs.Prelude.{◌≡◌, ◌≤◌, length};
ghost use Rattle.memory.specs.Lists.{table, filled};
ghost use Rattle.layouts.specs.Formats.{block_bytes, block_values};
ghost use Rattle.layouts.specs.Weights.{value_in, weight_at, values_of};
ghost use Rattle.decoders.specs.Says.{dequantize_refusal, dequantize_says};

use crate::q8_0::decode_q8_0_blocks;
use decoded_blocks::{decode_32, decode_k};
use layouts::{Format, Format32, FormatK, block_bytes, block_values};
use refusals::Refusal;

// One block's values.
fn decode_block(format: Format, block: &[u8], out: &mut [f32])
    requires { (length block.now ≡ block_bytes format) × (length out.old ≡ block_values format) }
    ensures { out.new ≡ table (value_in format block.now) (block_values format) }
{
    match format {
        Format::Of32(f) => decode_32(f, block, out),
        Format::OfK(f) => decode_k(f, block, out),
    }
}

// The values of the whole blocks of `bytes`, at the front of the output, whatever their format.
#[tactic(auto, using(memory::proofs::Parts::part_within))]
fn decode_each(format: Format, bytes: &[u8], out: &mut [f32])
    requires { values_of format (length bytes.now) ≤ length out.old }
    ensures { out.new
        ≡ filled (weight_at format bytes.now) out.old
        (values_of format (length bytes.now)) }
{
    let size = block_bytes(format);
    let values = block_values(format);
    let count = bytes.len() / size;
    for b in 0..count {
        let from = b * size;
        let to = from + size;
        let at = b * values;
        let end = at + values;
        decode_block(format, &bytes[from..to], &mut out[at..end]);
    }
}

// The same, but Q8_0's blocks have a loop of their own: in the loop for any format the compiler does not widen their
// bytes straight from the block.
pub fn decode_blocks(format: Format, bytes: &[u8], out: &mut [f32])
    requires { values_of format (length bytes.now) ≤ length out.old }
    ensures { out.new
        ≡ filled (weight_at format bytes.now) out.old
        (values_of format (length bytes.now)) }
{
    match format {
        Format::Of32(Format32::Q80) => decode_q8_0_blocks(bytes, out),
        _ => decode_each(format, bytes, out),
    }
}

// Why a decoder of n bytes into `room` places refuses.
fn dequantize_refusal(format: Format, n: usize, room: usize) -> Result<(), Refusal>
    ensures { result ≡ dequantize_refusal format n room }
{
    let size = block_bytes(format);
    if n > refusals::MOST_BYTES {
        return Err(Refusal::TooLarge);
    }
    if n % size != 0 {
        return Err(Refusal::NotWholeBlocks);
    }
    if room < n / size * block_values(format) {
        return Err(Refusal::RoomShort);
    }
    Ok(())
}

fn dequantize(format: Format, bytes: &[u8], out: &mut [f32]) -> Result<(), Refusal>
    ensures { (result, out.new)
        ≡ dequantize_says format bytes.now out.old }
{
    dequantize_refusal(format, bytes.len(), out.len())?;
    decode_blocks(format, bytes, out);
    Ok(())
}

// Q4_0: 32 values to a block of 18 bytes. Each of these calls refuses 6, 1 and 5, in this order.
pub fn dequantize_q4_0(bytes: &[u8], out: &mut [f32]) -> Result<(), Refusal>
    ensures { (result, out.new)
        ≡ dequantize_says (Format.Of32 Format32.Q40) bytes.now out.old }
{
    dequantize(Format::Of32(Format32::Q40), bytes, out)
}

// Q4_0 in GGML's order: 32 values to a block of 18 bytes.
pub fn dequantize_q4_0_ggml(bytes: &[u8], out: &mut [f32]) -> Result<(), Refusal>
    ensures { (result, out.new)
        ≡ dequantize_says (Format.Of32 Format32.Q40Ggml) bytes.now out.old }
{
    dequantize(Format::Of32(Format32::Q40Ggml), bytes, out)
}

// Q5_0: 32 values to a block of 22 bytes.
pub fn dequantize_q5_0(bytes: &[u8], out: &mut [f32]) -> Result<(), Refusal>
    ensures { (result, out.new)
        ≡ dequantize_says (Format.Of32 Format32.Q50) bytes.now out.old }
{
    dequantize(Format::Of32(Format32::Q50), bytes, out)
}

// Q8_0: 32 values to a block of 34 bytes.
pub fn dequantize_q8_0(bytes: &[u8], out: &mut [f32]) -> Result<(), Refusal>
    ensures { (result, out.new)
        ≡ dequantize_says (Format.Of32 Format32.Q80) bytes.now out.old }
{
    dequantize(Format::Of32(Format32::Q80), bytes, out)
}

// IQ4_NL: 32 values to a block of 18 bytes.
pub fn dequantize_iq4_nl(bytes: &[u8], out: &mut [f32]) -> Result<(), Refusal>
    ensures { (result, out.new)
        ≡ dequantize_says (Format.Of32 Format32.Iq4Nl) bytes.now out.old }
{
    dequantize(Format::Of32(Format32::Iq4Nl), bytes, out)
}

// Q4_K: 256 values to a block of 144 bytes.
pub fn dequantize_q4_k(bytes: &[u8], out: &mut [f32]) -> Result<(), Refusal>
    ensures { (result, out.new)
        ≡ dequantize_says (Format.OfK FormatK.Q4K) bytes.now out.old }
{
    dequantize(Format::OfK(FormatK::Q4K), bytes, out)
}

// Q5_K: 256 values to a block of 176 bytes.
pub fn dequantize_q5_k(bytes: &[u8], out: &mut [f32]) -> Result<(), Refusal>
    ensures { (result, out.new)
        ≡ dequantize_says (Format.OfK FormatK.Q5K) bytes.now out.old }
{
    dequantize(Format::OfK(FormatK::Q5K), bytes, out)
}

// Q6_K: 256 values to a block of 210 bytes.
pub fn dequantize_q6_k(bytes: &[u8], out: &mut [f32]) -> Result<(), Refusal>
    ensures { (result, out.new)
        ≡ dequantize_says (Format.OfK FormatK.Q6K) bytes.now out.old }
{
    dequantize(Format::OfK(FormatK::Q6K), bytes, out)
}
