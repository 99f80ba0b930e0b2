// Whether the compiled code answers a row as the row says: a function for each kind of row, and one for all.
ghost use Rattle.std.specs.Prelude.{true, [], ◌∷◌, ◌≡◌, ◌<◌, ◌≤◌};
ghost use Rattle.bench_rows.specs.Card.{first_quants, same_numbers};
ghost use Rattle.bench_rows.specs.Rows.{judged};

use crate::table::Row;
use dots_activation::Q8Block;
use halves::{bits_of, f32_to_f16, of_bits};
use numbers::unsigned_byte;
use readings::{inverse_of, round_q8};
use replay_answers::same_bytes;

fn widens(half: u16, bits: u32) -> bool
    ensures { result ≡ judged (Row.Widens half bits) }
{
    bits_of(halves::f16_to_f32(half)) == bits
}

fn encodes(a: u32, x: u16) -> bool
    ensures { result ≡ judged (Row.Encodes a x) }
{
    f32_to_f16(a).bits == x
}

fn encodes_two(a: u32, x: u16, b: u32, y: u16) -> bool
    ensures { result ≡ judged (Row.EncodesTwo a x b y) }
{
    encodes(a, x) && encodes(b, y)
}

fn encodes_three(a: u32, x: u16, b: u32, y: u16, c: u32, z: u16) -> bool
    ensures { result ≡ judged (Row.EncodesThree a x b y c z) }
{
    encodes_two(a, x, b, y) && encodes(c, z)
}

fn becomes(n: i32, bits: u32) -> bool
    ensures { result ≡ judged (Row.Becomes n bits) }
{
    bits_of(numbers::whole_to_f32(n)) == bits
}

fn gives(bits: u32, quant: u8) -> bool
    ensures { result ≡ judged (Row.Gives bits quant) }
{
    unsigned_byte(round_q8(of_bits(bits))) == quant
}

fn packs(first: u32, a: u8, b: u8, c: u8) -> bool
    ensures { result ≡ judged (Row.Packs first a b c) }
{
    let mut readings = [0.0f32; 32];
    readings[0] = of_bits(first);
    let mut card = [0x88u8; 18];
    card[0] = a;
    card[1] = b;
    card[2] = c;
    let mut out = [0u8; 18];
    let Ok(_) = quantizers::quantize_q4_0(&readings, &mut out) else {
        return false;
    };
    same_bytes(&out, &card)
}

fn sums_to(first: u32, bits: u32) -> bool
    ensures { result ≡ judged (Row.Sums first bits) }
{
    let mut readings = [1.0f32; 3];
    readings[0] = of_bits(first);
    let Ok(sum) = sums::canonical_sum_pub(&readings, 3) else {
        return false;
    };
    bits_of(sum) == bits
}

// The inverse of a block's scale, and its first three quants, as bytes.
fn block_is(block: Q8Block, inverse: u32, a: u8, b: u8, c: u8) -> bool
    ensures { result ≡ same_numbers (first_quants 3 block) (inverse ∷ a ∷ b ∷ c ∷ []) }
{
    let qs = block.qs;
    if bits_of(inverse_of(block.d)) != inverse {
        return false;
    }
    if unsigned_byte(qs[0]) != a {
        return false;
    }
    if unsigned_byte(qs[1]) != b {
        return false;
    }
    unsigned_byte(qs[2]) == c
}

fn quantizes(x: u32, y: u32, inverse: u32, a: u8, b: u8, c: u8) -> bool
    ensures { result ≡ judged (Row.Quantizes x y inverse a b c) }
{
    let mut readings = [0.0f32; 3];
    readings[0] = of_bits(x);
    readings[1] = of_bits(y);
    let Ok(block) = dots_activation::quantize_block_q8(&readings) else {
        return false;
    };
    block_is(block, inverse, a, b, c)
}

// The compiled code answers this row as it says.
pub fn holds(row: Row) -> bool
    ensures { result ≡ judged row }
{
    match row {
        Row::Widens(half, bits) => widens(half, bits),
        Row::Encodes(a, x) => encodes(a, x),
        Row::EncodesTwo(a, x, b, y) => encodes_two(a, x, b, y),
        Row::EncodesThree(a, x, b, y, c, z) => encodes_three(a, x, b, y, c, z),
        Row::Packs(first, a, b, c) => packs(first, a, b, c),
        Row::Sums(first, bits) => sums_to(first, bits),
        Row::Becomes(n, bits) => becomes(n, bits),
        Row::Quantizes(x, y, inverse, a, b, c) => quantizes(x, y, inverse, a, b, c),
        Row::Gives(bits, quant) => gives(bits, quant),
    }
}

// Row 1 to 12 of the card, which holds.
pub fn row_holds(number: u64) -> bool
    requires { (0 < number) × (number ≤ 12) }
    ensures { result ≡ true }
{
    holds(crate::table::row_of(number))
}
