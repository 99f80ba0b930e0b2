// How many blocks of a K format there are: those that a row takes, and those that weight bytes have.
ghost use Rattle.std.specs.Prelude.{◌≡◌, ◌≤◌};
ghost use Rattle.refusals.specs.Sizes.{most_in};
ghost use Rattle.memory.specs.Lists.{stretches_in};
ghost use Rattle.layouts.specs.Counts.{weights_short};

use crate::format::{Format, FormatK, block_bytes};
use refusals::Refusal;

// How many blocks n places take: 512 at most.
pub fn blocks_in(n: usize) -> usize
    requires { n ≤ most_in }
    ensures { result ≡ stretches_in 256 n }
{
    n.div_ceil(256)
}

// The refusal of too few weight bytes, with the whole blocks that they have and those that are needed.
pub fn weights_short(format: FormatK, bytes: usize, needed: usize) -> Refusal
    ensures { result ≡ weights_short format bytes needed }
{
    let size = block_bytes(Format::OfK(format));
    refusals::blocks_short(bytes / size, needed)
}
