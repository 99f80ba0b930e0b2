// Which of four the narrowing of a binary32 to a binary16 was.
ghost use Rattle.std.specs.Prelude.{◌≡◌};
ghost use Rattle.halves.specs.How.{how_narrowed};

// How a number fared when it was narrowed.
#[derive(Clone, Copy)]
pub enum How {
    // The half has its value, as zeros and infinities have.
    Exact,
    // Digits that do not fit are gone.
    Cut,
    // It was not zero, and the half is.
    Flushed,
    // The half is an infinity, and it was a NaN or finite.
    SentToInfinity,
}

// A binary16's bits, and how the number that it was made of fared.
#[derive(Clone, Copy)]
pub struct Narrowed {
    pub bits: u16,
    pub how: How,
}

// How the number with these bits fares. The halves' numbers are from 2^-14, whose exponent's field is 113, to below 2^16,
// at 143, and have ten digits behind the leading one, where a binary32 has thirteen more. A field of 255 is an infinity
// or a NaN.
pub(crate) fn how_narrowed(bits: u32) -> How
    ensures { result ≡ how_narrowed bits }
{
    let exp = bits / 0x80_0000 % 256;
    let magnitude = bits % 0x8000_0000;
    if exp <= 112 {
        if magnitude == 0 {
            return How::Exact;
        }
        return How::Flushed;
    }
    if exp >= 143 {
        if magnitude == 0x7F80_0000 {
            return How::Exact;
        }
        return How::SentToInfinity;
    }
    if bits % 0x2000 == 0 {
        return How::Exact;
    }
    How::Cut
}
