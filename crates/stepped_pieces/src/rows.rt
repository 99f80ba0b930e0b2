// A row's slots, met in the tree.
ghost use Rattle.std.specs.Prelude.{◌≡◌, ◌<◌, ◌≤◌, length};
ghost use Rattle.refusals.specs.Said.{done};
ghost use Rattle.stepped_shape.specs.Layer.{pieces};
ghost use Rattle.stepped_shape.specs.Refusals.{shape_refusal};
ghost use Rattle.stepped_pieces.specs.Pieces.{row_met};

use stepped_shape::{Layer, chunks_of};

// The tree works in a copy: the slots stay. One slot is its own sum, and needs no copy.
pub fn meet(l: Layer, row: usize, slots: &[f32]) -> f32
    requires { (shape_refusal l ≡ done) × (row < l.out_feat) × (pieces l ≤ length slots.now) }
    ensures { result ≡ row_met l slots.now row }
{
    let n = chunks_of(l);
    let at = row * n;
    if n == 1 {
        return slots[at];
    }
    let mut sums = [0.0f32; sums::MOST_CHUNKS];
    for c in 0..n {
        sums[c] = slots[at + c];
    }
    sums_tree::canonical_combine(&mut sums[..n])
}
