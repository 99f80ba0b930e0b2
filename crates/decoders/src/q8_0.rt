// Q8_0's blocks: the sizes are numbers, so that the compiler makes vectors of a whole block.
ghost use Rattle.std.specs.Prelude.{◌≡◌, ◌≤◌, length};
ghost use Rattle.memory.specs.Lists.{filled};
ghost use Rattle.layouts.specs.Weights.{weight_at, values_of};

use decoded_blocks::decode_q8_0;
use layouts::{Format, Format32};

// The values of the whole blocks of `bytes`, at the front of the output.
pub(crate) fn decode_q8_0_blocks(bytes: &[u8], out: &mut [f32])
    requires { values_of (Format.Of32 Format32.Q80) (length bytes.now) ≤ length out.old }
    ensures { out.new
        ≡ filled (weight_at (Format.Of32 Format32.Q80) bytes.now) out.old
        (values_of (Format.Of32 Format32.Q80) (length bytes.now)) }
{
    let count = bytes.len() / 34;
    for b in 0..count {
        let from = b * 34;
        let to = from + 34;
        let at = b * 32;
        let end = at + 32;
        decode_q8_0(&bytes[from..to], &mut out[at..end]);
    }
}
