// How an activation block is handed to C: as four places, its scale, its quants, its sums and its count.
ghost use Rattle.std.specs.Prelude.{◌≡◌};
ghost use Rattle.dots_activation.specs.Blocks.{block_in};
ghost use Rattle.c_answers.specs.Answers.{laid_out};

use crate::answers::number_of;
use dots_activation::Q8Block;
use refusals::Refusal;

// The number of a call that makes a block, which is stored in its four places where it was made.
#[tactic(auto, unfolding(crate::specs::Answers::number_of, crate::specs::Answers::laid_out))]
pub fn lay_out_block(
    made: Result<Q8Block, Refusal>,
    d: &mut f32,
    qs: &mut [i8; 256],
    bsums: &mut [i32; 8],
    count: &mut usize,
) -> u32
    ensures { (result, block_in d.new qs.new bsums.new count.new)
        ≡ laid_out made (block_in d.old qs.old bsums.old count.old) }
{
    if let Ok(block) = made {
        let quants = block.qs;
        let sums = block.bsums;
        *d = block.d;
        *qs = quants;
        *bsums = sums;
        *count = block.count;
    }
    number_of(made)
}
