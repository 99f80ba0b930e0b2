// The rows of the bench card, as specs/Card.antt has them. A float is given by its bits.
ghost use Rattle.std.specs.Prelude.{◌≡◌, ◌<◌, ◌≤◌};
ghost use Rattle.bench_rows.specs.Card.{row_at};
ghost use Rattle.bench_rows.specs.Rows.{meant};

// What a row asks, and what the card says.
#[derive(Clone, Copy)]
pub enum Row {
    // This f16 is this f32.
    Widens(u16, u32),
    // This f32 encodes as this f16, ..
    Encodes(u32, u16),
    // .. two of them, ..
    EncodesTwo(u32, u16, u32, u16),
    // .. and three.
    EncodesThree(u32, u16, u32, u16, u32, u16),
    // Q4_0 of this reading and 31 zeros: these three bytes, then fifteen 88.
    Packs(u32, u8, u8, u8),
    // The sum of this reading, 1, 1.
    Sums(u32, u32),
    // What this integer becomes.
    Becomes(i32, u32),
    // Of these two readings and 0: the inverse of their scale, and their quants, as bytes.
    Quantizes(u32, u32, u32, u8, u8, u8),
    // The quant that this scaled reading gives, as a byte.
    Gives(u32, u8),
}

// Row 1 to 12 of the card.
pub fn row_of(number: u64) -> Row
    requires { (0 < number) × (number ≤ 12) }
    ensures { meant result ≡ row_at number }
{
    match number {
        1 => Row::Widens(0x3C00, 0x3F80_0000),
        2 => Row::Widens(0x0001, 0x3380_0000),
        3 => Row::Widens(0x03FF, 0x387F_C000),
        4 => Row::EncodesTwo(0x387F_FFFF, 0x0000, 0x3880_0000, 0x0400),
        5 => Row::Encodes(0x3F80_1FFF, 0x3C00),
        6 => Row::EncodesThree(
            0x477F_FFFF,
            0x7BFF,
            0x4780_0000,
            0x7C00,
            0xFFC0_0000,
            0xFC00,
        ),
        7 => Row::Packs(0x0000_0000, 0x00, 0x80, 0x88),
        8 => Row::Packs(0x4100_0000, 0x00, 0xBC, 0x80),
        9 => Row::Sums(0x4B80_0000, 0x4B80_0000),
        10 => Row::Becomes(16_777_219, 0x4B80_0002),
        11 => Row::Quantizes(0x0080_0000, 0x0000_0200, 0x7F80_0000, 127, 127, 0),
        _ => Row::Gives(0x3EFF_FFFF, 1),
    }
}
