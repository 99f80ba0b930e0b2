// The quantizers: every block's bytes, each block's in its own places in the middle of the output.
ghost use Rattle.std.specs.Prelude.{◌≡◌, ◌≤◌, length};
ghost use Rattle.memory.specs.Lists.{filled};
ghost use Rattle.quantizers.specs.Lost.{lost_by};
ghost use Rattle.quantizers.specs.Says.{packed_at, bytes_for, quantize_refusal, quantize_says, quantize_given_says};

use crate::block::quantize_block;
use crate::lost::{Lost, count};
use crate::target::{Target, format_of};
use layouts::{Format, block_bytes};
use refusals::{Refusal, passed_on};

// The bytes of the whole blocks of 32 readings, at the front of the output, and what their scales lost.
#[tactic(auto, using(memory::proofs::Parts::part_within))]
fn quantize_blocks(target: Target, x: &[f32], out: &mut [u8]) -> Lost
    requires { bytes_for target (length x.now) ≤ length out.old }
    ensures { (result ≡ lost_by target x.now)
        × (out.new
        ≡ filled (packed_at target x.now) out.old (bytes_for target (length x.now))) }
{
    let size = block_bytes(Format::Of32(format_of(target)));
    let blocks = x.len() / 32;
    let mut lost = Lost {
        flushed: 0,
        infinite: 0,
    };
    for b in 0..blocks {
        let from = b * 32;
        let to = from + 32;
        let at = b * size;
        let end = at + size;
        let how = quantize_block(target, &x[from..to], &mut out[at..end]);
        lost = count(lost, how);
    }
    lost
}

// Why a quantizer of n readings into `room` places refuses.
fn quantize_refusal(target: Target, n: usize, room: usize) -> Result<(), Refusal>
    ensures { result ≡ quantize_refusal target n room }
{
    if n > refusals::MOST_FLOATS {
        return Err(Refusal::TooLarge);
    }
    if n % 32 != 0 {
        return Err(Refusal::NotAMultiple);
    }
    if room < n / 32 * block_bytes(Format::Of32(format_of(target))) {
        return Err(Refusal::RoomShort);
    }
    Ok(())
}

// The readings as blocks of a target, and what their scales lost, or why not.
fn quantize(target: Target, x: &[f32], out: &mut [u8]) -> Result<Lost, Refusal>
    ensures { (result, out.new) ≡ quantize_says target x.now out.old }
{
    quantize_refusal(target, x.len(), out.len())?;
    Ok(quantize_blocks(target, x, out))
}

// The readings as Q4_0 blocks, and what their scales lost. Refuses 6, 2 and 5, in this order.
pub fn quantize_q4_0(x: &[f32], out: &mut [u8]) -> Result<Lost, Refusal>
    ensures { (result, out.new) ≡ quantize_says Target.Q40 x.now out.old }
{
    quantize(Target::Q40, x, out)
}

// The readings as Q4_0 blocks in GGML's order, and what their scales lost. Refuses 6, 2 and 5, in this order.
pub fn quantize_q4_0_ggml(x: &[f32], out: &mut [u8]) -> Result<Lost, Refusal>
    ensures { (result, out.new)
        ≡ quantize_says Target.Q40Ggml x.now out.old }
{
    quantize(Target::Q40Ggml, x, out)
}

// The readings as Q8_0 blocks, and what their scales lost. Refuses 6, 2 and 5, in this order.
pub fn quantize_q8_0(x: &[f32], out: &mut [u8]) -> Result<Lost, Refusal>
    ensures { (result, out.new) ≡ quantize_says Target.Q80 x.now out.old }
{
    quantize(Target::Q80, x, out)
}

// The readings as IQ4_NL blocks by one scale, a binary16, which every block stores as it is. Refuses 6, 2 and 5, in this
// order.
pub fn quantize_iq4_nl(x: &[f32], scale: u16, out: &mut [u8]) -> Result<(), Refusal>
    ensures { (result, out.new) ≡ quantize_given_says scale x.now out.old }
{
    passed_on(quantize(Target::Iq4Nl(scale), x, out))
}
