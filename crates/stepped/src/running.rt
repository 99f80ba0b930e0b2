// Run: the next open pieces, as many as a budget allows.
ghost use Rattle.std.specs.Prelude.{◌≡◌, length};
ghost use Rattle.stepped_shape.specs.Layer.{memory};
ghost use Rattle.stepped_shape.specs.Inner.{LayerReady, PieceRoom};
ghost use Rattle.stepped.specs.Says.{work, run_work, run_says};

use layouts::FormatK;
use refusals::Refusal;
use stepped_pieces::work_one;
use stepped_shape::{Layer, Progress, chunks_of, count_open, pieces_of, place_of, work_refusal};

// Works the next open pieces in row order, chunks rising, at most `budget`. Returns how many were worked.
fn work_open(
    format: FormatK,
    l: Layer,
    w: &[u8],
    x: &[f32],
    budget: usize,
    slots: &mut [f32],
    marks: &mut [u8],
) -> usize
    requires { LayerReady format l (length w.now) (length x.now)
        × PieceRoom l (length slots.old) (length marks.old) }
    ensures { work (memory slots.new marks.new) result
        ≡ run_work format l w.now x.now budget
        (memory slots.old marks.old) }
{
    let rows = l.out_feat;
    let chunks = chunks_of(l);
    let mut done: usize = 0;
    'rows: for row in 0..rows {
        for chunk in 0..chunks {
            if done == budget {
                break 'rows;
            }
            let at = place_of(l, row, chunk);
            if marks[at] == 0 {
                work_one(format, l, w, x, row, chunk, slots, marks);
                done += 1;
            }
        }
    }
    done
}

// Works at most `budget` open pieces, and says how many it did and how many stay open. Refuses 12, 6, 2, 3, 4 and 5, in
// this order.
pub fn run(
    l: Layer,
    w: &[u8],
    x: &[f32],
    budget: usize,
    slots: &mut [f32],
    marks: &mut [u8],
) -> Result<Progress, Refusal>
    ensures { (result, memory slots.new marks.new)
        ≡ run_says l w.now x.now budget
        (memory slots.old marks.old) }
{
    let format = FormatK::try_from(l.format)?;
    work_refusal(format, l, w.len(), x.len(), slots.len(), marks.len())?;
    let done = work_open(format, l, w, x, budget, slots, marks);
    let n = pieces_of(l);
    let left = count_open(&marks[..n]);
    Ok(Progress { done, left })
}
