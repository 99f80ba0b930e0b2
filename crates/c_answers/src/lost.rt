// How C is handed how a number fared when it was narrowed, and what a quantizer's scales lost.
ghost use Rattle.std.specs.Prelude.{◌≡◌};
ghost use Rattle.c_answers.specs.Answers.{number_of};
ghost use Rattle.c_answers.specs.Lost.{how_number, lost_after};

use crate::answers::number_of;
use halves::How;
use quantizers::Lost;
use refusals::Refusal;

// The number of how a number fared: 0 exact, 1 cut, 2 flushed, 3 sent to infinity.
pub fn number_of_how(how: How) -> u32
    ensures { result ≡ how_number how }
{
    match how {
        How::Exact => 0,
        How::Cut => 1,
        How::Flushed => 2,
        How::SentToInfinity => 3,
    }
}

// The number of a quantizer, whose two counts are stored where it is done.
#[tactic(auto, unfolding(crate::specs::Answers::number_of, crate::specs::Lost::lost_after))]
pub fn number_and_lost(packing: Result<Lost, Refusal>, lost: &mut [usize; 2]) -> u32
    ensures { (result ≡ number_of packing)
        × (lost.new ≡ lost_after packing lost.old) }
{
    if let Ok(counts) = packing {
        *lost = [counts.flushed, counts.infinite];
    }
    number_of(packing)
}
