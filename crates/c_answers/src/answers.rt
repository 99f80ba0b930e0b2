// How an answer is handed to C: its number is returned, and what it gives and its block counts go through pointers.
ghost use Rattle.std.specs.Prelude.{◌≡◌};
ghost use Rattle.refusals.specs.Said.{number};
ghost use Rattle.c_answers.specs.Answers.{number_of, laid_out, blocks_by, blocks_after, laid_out_blocks};

use refusals::Refusal;

// The number of a call: 0 where it does not refuse, and otherwise the number that says no.
#[tactic(auto, unfolding(crate::specs::Answers::number_of))]
pub fn number_of<T: Drop>(answer: Result<T, Refusal>) -> u32
    ensures { result ≡ number_of answer }
{
    if let Err(refusal) = answer {
        return refusal.number();
    }
    0
}

// The number of a call that gives something, which is stored where it does not refuse.
#[tactic(auto, unfolding(crate::specs::Answers::number_of, crate::specs::Answers::laid_out))]
pub fn lay_out<T: Copy>(answer: Result<T, Refusal>, given: &mut T) -> u32
    ensures { (result, given.new) ≡ laid_out answer given.old }
{
    if let Ok(value) = &answer {
        *given = *value;
    }
    number_of(answer)
}

// The number of a refusal, whose two block counts are stored where weights are short.
#[tactic(auto, unfolding(crate::specs::Answers::blocks_by))]
fn refused_by(refusal: Refusal, blocks: &mut [usize; 2]) -> u32
    ensures { (result ≡ number refusal) × (blocks.new ≡ blocks_by refusal blocks.old) }
{
    match refusal {
        Refusal::WeightsShort { found, needed } => *blocks = [found, needed],
        _ => {}
    }
    refusal.number()
}

// The number of a call that counts the blocks of its weights.
#[tactic(auto, unfolding(crate::specs::Answers::number_of, crate::specs::Answers::blocks_after))]
pub fn number_and_blocks<T: Drop>(answer: Result<T, Refusal>, blocks: &mut [usize; 2]) -> u32
    ensures { (result ≡ number_of answer) × (blocks.new ≡ blocks_after answer blocks.old) }
{
    match answer {
        Ok(_) => 0,
        Err(refusal) => refused_by(refusal, blocks),
    }
}

// The number of a call that gives something, which is stored where it does not refuse, and counts the blocks of its
// weights.
#[tactic(auto, unfolding(crate::specs::Answers::number_of, crate::specs::Answers::laid_out, crate::specs::Answers::blocks_after, crate::specs::Answers::laid_out_blocks))]
pub fn lay_out_and_blocks<T: Copy>(
    answer: Result<T, Refusal>,
    given: &mut T,
    blocks: &mut [usize; 2],
) -> u32
    ensures { (result, (given.new, blocks.new))
        ≡ laid_out_blocks answer given.old blocks.old }
{
    if let Ok(value) = &answer {
        *given = *value;
    }
    number_and_blocks(answer, blocks)
}
