// The converters: every block in the other order, each in its own places in the middle of the output.
ghost use Rattle.std.specs.Prelude.{◌≡◌, ◌%◌, ◌≤◌, length};
ghost use Rattle.memory.specs.Lists.{filled};
ghost use Rattle.converters.specs.Orders.{converted_at};
ghost use Rattle.converters.specs.Says.{convert_refusal, convert_says};

use crate::block::convert_block;
use crate::direction::Direction;
use refusals::Refusal;

// The blocks of `bytes` in the other order, at the front of the output. A block has 18 bytes in either.
fn convert_blocks(direction: Direction, bytes: &[u8], out: &mut [u8])
    requires { (length bytes.now % 18 ≡ 0) × (length bytes.now ≤ length out.old) }
    ensures { out.new
        ≡ filled (converted_at direction bytes.now) out.old (length bytes.now) }
{
    let count = bytes.len() / 18;
    for b in 0..count {
        let at = b * 18;
        let end = at + 18;
        convert_block(direction, &bytes[at..end], &mut out[at..end]);
    }
}

// Why a converter of n bytes into `room` places refuses.
fn convert_refusal(n: usize, room: usize) -> Result<(), Refusal>
    ensures { result ≡ convert_refusal n room }
{
    if n > refusals::MOST_BYTES {
        return Err(Refusal::TooLarge);
    }
    if n % 18 != 0 {
        return Err(Refusal::NotWholeBlocks);
    }
    if room < n {
        return Err(Refusal::RoomShort);
    }
    Ok(())
}

fn convert(direction: Direction, bytes: &[u8], out: &mut [u8]) -> Result<(), Refusal>
    ensures { (result, out.new)
        ≡ convert_says direction bytes.now out.old }
{
    convert_refusal(bytes.len(), out.len())?;
    convert_blocks(direction, bytes, out);
    Ok(())
}

// Q4_0 blocks that pair neighbours, in GGML's order. Both calls refuse 6, 1 and 5, in this order.
pub fn q4_0_to_ggml(bytes: &[u8], out: &mut [u8]) -> Result<(), Refusal>
    ensures { (result, out.new)
        ≡ convert_says Direction.ToGgml bytes.now out.old }
{
    convert(Direction::ToGgml, bytes, out)
}

// Q4_0 blocks in GGML's order, with neighbours paired.
pub fn q4_0_from_ggml(bytes: &[u8], out: &mut [u8]) -> Result<(), Refusal>
    ensures { (result, out.new)
        ≡ convert_says Direction.FromGgml bytes.now out.old }
{
    convert(Direction::FromGgml, bytes, out)
}
