// How what run says is handed to C: its number is returned, and its two counts and its block counts go through pointers.
ghost use Rattle.std.specs.Prelude.{◌≡◌};
ghost use Rattle.stepped_shape.specs.Progress.{ran};
ghost use Rattle.c_answers.specs.Answers.{laid_out_blocks};

use crate::answers::number_and_blocks;
use refusals::Refusal;
use stepped_shape::Progress;

// The number of run, whose two counts are stored where it has them.
#[tactic(auto, unfolding(crate::specs::Answers::number_of, crate::specs::Answers::laid_out, crate::specs::Answers::blocks_after, crate::specs::Answers::laid_out_blocks))]
pub fn lay_out_counts(
    progress: Result<Progress, Refusal>,
    done: &mut usize,
    left: &mut usize,
    blocks: &mut [usize; 2],
) -> u32
    ensures { (result, (ran done.new left.new, blocks.new))
        ≡ laid_out_blocks progress (ran done.old left.old) blocks.old }
{
    if let Ok(counts) = progress {
        *done = counts.done;
        *left = counts.left;
    }
    number_and_blocks(progress, blocks)
}
