// The calls. Each refuses 6, 2, 3, 4 and 5, in this order.
ghost use Rattle.std.specs.Prelude.{◌≡◌};
ghost use Rattle.layers_shape.specs.Shapes.{shape};
ghost use Rattle.layers_integer.specs.Says.{integer_layer_says};

use dots_kept_row::Meeting;
use layers_integer_row::rows_of;
use layers_shape::{Shape, layer_refusal};
use layouts::FormatK;
use refusals::Refusal;

// Rows of at most 16 blocks have room of their own: to clear room for 512 takes longer than such a row's dot.
fn integer_layer(
    format: FormatK,
    meeting: Meeting,
    x: &[f32],
    w: &[u8],
    y: &mut [f32],
    s: Shape,
) -> Result<(), Refusal>
    ensures { (result, y.new)
        ≡ integer_layer_says format meeting s x.now w.now y.old }
{
    layer_refusal(format, s, x.len(), w.len(), y.len())?;
    if s.in_feat > 4096 {
        rows_of::<512>(format, meeting, x, w, y, s);
    } else {
        rows_of::<16>(format, meeting, x, w, y, s);
    }
    Ok(())
}

// The dots of a row's blocks meet in the tree.
pub fn linear_q4_k_integer(
    x: &[f32],
    w: &[u8],
    y: &mut [f32],
    batch: usize,
    in_feat: usize,
    out_feat: usize,
) -> Result<(), Refusal>
    ensures { (result, y.new)
        ≡ integer_layer_says FormatK.Q4K Meeting.Tree (shape batch in_feat out_feat) x.now w.now
        y.old }
{
    let s = Shape::of(batch, in_feat, out_feat);
    integer_layer(FormatK::Q4K, Meeting::Tree, x, w, y, s)
}

// The same in Q5_K.
pub fn linear_q5_k_integer(
    x: &[f32],
    w: &[u8],
    y: &mut [f32],
    batch: usize,
    in_feat: usize,
    out_feat: usize,
) -> Result<(), Refusal>
    ensures { (result, y.new)
        ≡ integer_layer_says FormatK.Q5K Meeting.Tree (shape batch in_feat out_feat) x.now w.now
        y.old }
{
    let s = Shape::of(batch, in_feat, out_feat);
    integer_layer(FormatK::Q5K, Meeting::Tree, x, w, y, s)
}

// The same in Q6_K.
pub fn linear_q6_k_integer(
    x: &[f32],
    w: &[u8],
    y: &mut [f32],
    batch: usize,
    in_feat: usize,
    out_feat: usize,
) -> Result<(), Refusal>
    ensures { (result, y.new)
        ≡ integer_layer_says FormatK.Q6K Meeting.Tree (shape batch in_feat out_feat) x.now w.now
        y.old }
{
    let s = Shape::of(batch, in_feat, out_feat);
    integer_layer(FormatK::Q6K, Meeting::Tree, x, w, y, s)
}

// They meet in a running sum from +0.0.
pub fn linear_q4_k_integer_rs(
    x: &[f32],
    w: &[u8],
    y: &mut [f32],
    batch: usize,
    in_feat: usize,
    out_feat: usize,
) -> Result<(), Refusal>
    ensures { (result, y.new)
        ≡ integer_layer_says FormatK.Q4K Meeting.Running (shape batch in_feat out_feat) x.now
        w.now y.old }
{
    let s = Shape::of(batch, in_feat, out_feat);
    integer_layer(FormatK::Q4K, Meeting::Running, x, w, y, s)
}

// The same in Q5_K.
pub fn linear_q5_k_integer_rs(
    x: &[f32],
    w: &[u8],
    y: &mut [f32],
    batch: usize,
    in_feat: usize,
    out_feat: usize,
) -> Result<(), Refusal>
    ensures { (result, y.new)
        ≡ integer_layer_says FormatK.Q5K Meeting.Running (shape batch in_feat out_feat) x.now
        w.now y.old }
{
    let s = Shape::of(batch, in_feat, out_feat);
    integer_layer(FormatK::Q5K, Meeting::Running, x, w, y, s)
}

// The same in Q6_K.
pub fn linear_q6_k_integer_rs(
    x: &[f32],
    w: &[u8],
    y: &mut [f32],
    batch: usize,
    in_feat: usize,
    out_feat: usize,
) -> Result<(), Refusal>
    ensures { (result, y.new)
        ≡ integer_layer_says FormatK.Q6K Meeting.Running (shape batch in_feat out_feat) x.now
        w.now y.old }
{
    let s = Shape::of(batch, in_feat, out_feat);
    integer_layer(FormatK::Q6K, Meeting::Running, x, w, y, s)
}
