// The formats, by the values that a block has. A format's name is written without its underscore, which has a meaning
// of its own in a definition.
ghost use Rattle.std.specs.Prelude.{◌≡◌};
ghost use Rattle.layouts.specs.Formats.{bytes32, bytes_k, block_bytes, block_values, format_named};

use refusals::Refusal;

// The formats with 32 values to a block. Q4_0 is in two orders: with neighbours paired in a byte, and in GGML's.
#[derive(Clone, Copy)]
pub enum Format32 {
    Q40,
    Q40Ggml,
    Q50,
    Q80,
    Iq4Nl,
}

// The K formats: 256 values to a block, in 16 runs of 16.
#[derive(Clone, Copy)]
pub enum FormatK {
    Q4K,
    Q5K,
    Q6K,
}

#[derive(Clone, Copy)]
pub enum Format {
    Of32(Format32),
    OfK(FormatK),
}

fn bytes_32(format: Format32) -> usize
    ensures { result ≡ bytes32 format }
{
    match format {
        Format32::Q40 => 18,
        Format32::Q40Ggml => 18,
        Format32::Q50 => 22,
        Format32::Q80 => 34,
        Format32::Iq4Nl => 18,
    }
}

fn bytes_k(format: FormatK) -> usize
    ensures { result ≡ bytes_k format }
{
    match format {
        FormatK::Q4K => 144,
        FormatK::Q5K => 176,
        FormatK::Q6K => 210,
    }
}

// How many bytes a block has.
pub fn block_bytes(format: Format) -> usize
    ensures { result ≡ block_bytes format }
{
    match format {
        Format::Of32(f) => bytes_32(f),
        Format::OfK(f) => bytes_k(f),
    }
}

// How many values a block has.
pub fn block_values(format: Format) -> usize
    ensures { result ≡ block_values format }
{
    match format {
        Format::Of32(_) => 32,
        Format::OfK(_) => 256,
    }
}

impl TryFrom<u8> for FormatK {
    type Error = Refusal;

    // The format that a layer's format byte names: 4 is Q4_K, 5 is Q5_K, 6 is Q6_K. Refuses 12 for any other byte.
    #[tactic(auto, unfolding(crate::specs::Formats::format_named))]
    fn try_from(byte: u8) -> Result<FormatK, Refusal>
        ensures { result ≡ format_named byte }
    {
        match byte {
            4 => Ok(FormatK::Q4K),
            5 => Ok(FormatK::Q5K),
            6 => Ok(FormatK::Q6K),
            _ => Err(Refusal::Unknown),
        }
    }
}
