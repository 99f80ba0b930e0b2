// An activation block as it stands in a payload: its scale, its quants, a byte each, its sums, each as the bits of an
// i32, and its count.
ghost use Rattle.std.specs.Prelude.{◌≡◌, ◌==◌, ◌&&◌};
ghost use Rattle.std.specs.Ordering.{int_eq};
ghost use Rattle.std.specs.Cmp.Lexicographic.{pointwise};
ghost use Rattle.replay_answers.specs.Same.{same_bits};

use dots_activation::Q8Block;
use replay_answers::{byte_at, same_bits, u32_at};

// The bytes of a block.
pub const BLOCK: usize = 296;
// Where its quants begin ..
const QUANTS: usize = 4;
// .. where its sums do ..
const SUMS: usize = 260;
// .. and where its count does.
const COUNT: usize = 292;

fn read_quants(payload: &[u8]) -> [i8; 256] {
    let mut qs = [0i8; 256];
    for (i, quant) in qs.iter_mut().enumerate() {
        *quant = numbers::signed_byte(byte_at(payload, QUANTS + i));
    }
    qs
}

fn read_sums(payload: &[u8]) -> [i32; 8] {
    let mut sums = [0i32; 8];
    for (j, sum) in sums.iter_mut().enumerate() {
        *sum = u32_at(payload, SUMS + 4 * j).cast_signed();
    }
    sums
}

// The payload's first block.
pub fn read_block(payload: &[u8]) -> Q8Block {
    let d = halves::of_bits(u32_at(payload, 0));
    let qs = read_quants(payload);
    let bsums = read_sums(payload);
    let count = u32_at(payload, COUNT) as usize;
    Q8Block {
        d,
        qs,
        bsums,
        count,
    }
}

// Whether two blocks have the same scale, quants, sums and count.
pub fn same_blocks(a: Q8Block, b: Q8Block) -> bool
    ensures { result
        ≡ (same_bits a.d b.d && (a.count == b.count && (pointwise int_eq a.qs b.qs
        && pointwise int_eq a.bsums b.bsums))) }
{
    same_bits(a.d, b.d) && a.count == b.count && a.qs == b.qs && a.bsums == b.bsums
}
