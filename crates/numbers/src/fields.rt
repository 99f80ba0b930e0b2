// The fields of packed bytes: little-endian numbers, and a byte as a signed number.
ghost use Rattle.std.specs.Prelude.{◌≡◌, ◌+◌, ◌*◌, ◌<◌, ◌≤◌, length};
ghost use Rattle.numbers.specs.Fields.{le16, le32, signed, byte_of};

// The little-endian number of two bytes, the low one first.
pub fn le_u16(b0: u8, b1: u8) -> u16
    ensures { result ≡ b0 + 256 * b1 }
{
    u16::from_le_bytes([b0, b1])
}

// The little-endian number of four bytes.
pub fn le_u32(b0: u8, b1: u8, b2: u8, b3: u8) -> u32
    ensures { result ≡ (b0 + 256 * b1) + 65536 * (b2 + 256 * b3) }
{
    u32::from_le_bytes([b0, b1, b2, b3])
}

// The two bytes at i, as a size.
pub fn u16_at(s: &[u8], i: usize) -> usize
    requires { i + 2 ≤ length s.now }
    ensures { (result ≡ le16 s.now i) × (result < 65536) }
{
    le_u16(s[i], s[i + 1]) as usize
}

// The four bytes at i, as bits.
pub fn bits_at(s: &[u8], i: usize) -> u32
    requires { i + 4 ≤ length s.now }
    ensures { result ≡ le32 s.now i }
{
    le_u32(s[i], s[i + 1], s[i + 2], s[i + 3])
}

// The four bytes at i, as a size.
pub fn u32_at(s: &[u8], i: usize) -> usize
    requires { i + 4 ≤ length s.now }
    ensures { (result ≡ le32 s.now i) × (result < 4294967296) }
{
    bits_at(s, i) as usize
}

// A byte as a signed number, in two's complement.
#[tactic(auto, using(crate::proofs::Signed::signed_is))]
pub fn signed_byte(b: u8) -> i8
    ensures { result ≡ signed b }
{
    b.cast_signed()
}

// A signed number as a byte, in two's complement.
#[tactic(auto, using(crate::proofs::Signed::byte_is))]
pub fn unsigned_byte(z: i8) -> u8
    ensures { result ≡ byte_of z }
{
    z.cast_unsigned()
}
