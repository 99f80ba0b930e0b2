// Close: a row's slots, met in the tree, are its output.
ghost use Rattle.std.specs.Prelude.{◌≡◌};
ghost use Rattle.stepped_shape.specs.Layer.{memory};
ghost use Rattle.stepped.specs.Says.{close_says};

use layouts::FormatK;
use refusals::Refusal;
use stepped_pieces::meet;
use stepped_shape::{Layer, close_refusal};

// Writes the row's output; closing again is allowed. Refuses 12, 6, 2, 5, 8 and 10, in this order.
pub fn close(
    l: Layer,
    row: usize,
    slots: &[f32],
    marks: &[u8],
    y: &mut [f32],
) -> Result<(), Refusal>
    ensures { (result, y.new)
        ≡ close_says l row (memory slots.now marks.now) y.old }
{
    FormatK::try_from(l.format)?;
    close_refusal(l, slots.len(), marks, y.len(), row)?;
    y[row] = meet(l, row, slots);
    Ok(())
}
