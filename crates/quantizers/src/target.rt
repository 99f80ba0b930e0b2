// The formats that readings are quantised to.
ghost use Rattle.std.specs.Prelude.{◌≡◌};
ghost use Rattle.quantizers.specs.Blocks.{format_of};

use layouts::Format32;

// The formats that have a quantizer: of those with 32 values to a block Q5_0 has none. That of IQ4_NL is given its scale,
// a binary16, and the others pick one for each block.
#[derive(Clone, Copy)]
pub enum Target {
    Q40,
    Q40Ggml,
    Q80,
    Iq4Nl(u16),
}

// The format of a target's blocks, which has their size.
pub fn format_of(target: Target) -> Format32
    ensures { result ≡ format_of target }
{
    match target {
        Target::Q40 => Format32::Q40,
        Target::Q40Ggml => Format32::Q40Ggml,
        Target::Q80 => Format32::Q80,
        Target::Iq4Nl(_) => Format32::Iq4Nl,
    }
}
