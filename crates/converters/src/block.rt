// One block in the other order.
ghost use Rattle.std.specs.Prelude.{◌≡◌, ◌+◌, ◌*◌, ◌/◌, ◌%◌, length};
ghost use Rattle.memory.specs.Lists.{table};
ghost use Rattle.converters.specs.Orders.{moved_byte, converted_byte};

use crate::direction::Direction;

// The low nibbles of two bytes, as one byte.
fn low_nibbles(a: u8, b: u8) -> u8
    ensures { result ≡ a % 16 + 16 * (b % 16) }
{
    a % 16 + 16 * (b % 16)
}

// The high nibbles of two bytes, as one byte.
fn high_nibbles(a: u8, b: u8) -> u8
    ensures { result ≡ a / 16 + 16 * (b / 16) }
{
    a / 16 + 16 * (b / 16)
}

// Neighbours move 16 places apart: bytes k and k + 8 of the nibbles become bytes 2k and 2k + 1.
fn move_apart(block: &[u8], out: &mut [u8])
    requires { (length block.now ≡ 18) × (length out.old ≡ 16) }
    ensures { out.new ≡ table (moved_byte Direction.ToGgml block.now) 16 }
{
    for k in 0..8usize {
        let a = block[2 + k];
        let b = block[10 + k];
        out[2 * k] = low_nibbles(a, b);
        out[2 * k + 1] = high_nibbles(a, b);
    }
}

// Back: bytes 2k and 2k + 1 of the nibbles become bytes k and k + 8.
fn move_together(block: &[u8], out: &mut [u8])
    requires { (length block.now ≡ 18) × (length out.old ≡ 16) }
    ensures { out.new ≡ table (moved_byte Direction.FromGgml block.now) 16 }
{
    for k in 0..8usize {
        let a = block[2 + 2 * k];
        let b = block[3 + 2 * k];
        out[k] = low_nibbles(a, b);
        out[k + 8] = high_nibbles(a, b);
    }
}

// One block: the scale's two bytes as they are, and the nibbles in the other order.
pub fn convert_block(direction: Direction, block: &[u8], out: &mut [u8])
    requires { (length block.now ≡ 18) × (length out.old ≡ 18) }
    ensures { out.new ≡ table (converted_byte direction block.now) 18 }
{
    out[0] = block[0];
    out[1] = block[1];
    match direction {
        Direction::ToGgml => move_apart(block, &mut out[2..18]),
        Direction::FromGgml => move_together(block, &mut out[2..18]),
    }
}
