// Open: marks to 0 and slots to +0.0.
ghost use Rattle.std.specs.Prelude.{◌≡◌, length};
ghost use Rattle.memory.specs.Lists.{table};
ghost use Rattle.stepped_shape.specs.Layer.{memory};
ghost use Rattle.stepped.specs.Says.{open_says};

use layouts::FormatK;
use refusals::Refusal;
use stepped_shape::{Layer, open_refusal, pieces_of};

// Every place becomes the same.
fn clear<T: Copy>(places: &mut [T], value: T)
    ensures { places.new ≡ table (λ i. value) (length places.old) }
{
    for place in places.iter_mut() {
        *place = value;
    }
}

// Clears the marks and the slots of every piece. Refuses 12, 6, 2 and 5, in this order.
pub fn open(l: Layer, slots: &mut [f32], marks: &mut [u8]) -> Result<(), Refusal>
    ensures { (result, memory slots.new marks.new)
        ≡ open_says l (memory slots.old marks.old) }
{
    FormatK::try_from(l.format)?;
    open_refusal(l, slots.len(), marks.len())?;
    let n = pieces_of(l);
    clear(&mut slots[..n], 0.0);
    clear(&mut marks[..n], 0);
    Ok(())
}
