// A layer's shape, and why a layer whose rows are whole K blocks says no: the fused, integer and `_rs` layers.
#![tactic(auto)]

ghost use Rattle.std.specs.Prelude.{◌≡◌, ◌≤◌};
ghost use Rattle.refusals.specs.Sizes.{most_in, most_out};
ghost use Rattle.layers_shape.specs.Shapes.{shape, oversize, row_bytes, weight_bytes, layer_short, layer_refusal};

use layouts::{Format, FormatK};
use refusals::Refusal;

// `batch` rows of in_feat readings, out_feat rows of in_feat weights, and an output for each pair of them.
#[derive(Clone, Copy)]
pub struct Shape {
    pub batch: usize,
    pub in_feat: usize,
    pub out_feat: usize,
}

impl Shape {
    // The shape of a call's three sizes.
    pub fn of(batch: usize, in_feat: usize, out_feat: usize) -> Shape
        ensures { result ≡ shape batch in_feat out_feat }
    {
        Shape {
            batch,
            in_feat,
            out_feat,
        }
    }
}

// Whether a size is over its most.
#[tactic(auto, unfolding(crate::specs::Shapes::oversize))]
pub fn is_oversize(s: Shape) -> bool
    ensures { result ≡ oversize s }
{
    if s.batch > refusals::MOST_BATCH {
        return true;
    }
    if s.in_feat > refusals::MOST_IN {
        return true;
    }
    s.out_feat > refusals::MOST_OUT
}

// The bytes of a row of n weights, whole blocks.
pub fn row_bytes(format: FormatK, n: usize) -> usize
    requires { n ≤ most_in }
    ensures { result ≡ row_bytes format n }
{
    n / 256 * layouts::block_bytes(Format::OfK(format))
}

// The bytes of a layer's weights.
pub fn weight_bytes(format: FormatK, in_feat: usize, out_feat: usize) -> usize
    requires { (in_feat ≤ most_in) × (out_feat ≤ most_out) }
    ensures { result ≡ weight_bytes format in_feat out_feat }
{
    out_feat * row_bytes(format, in_feat)
}

// The refusal of fewer weight bytes than a layer's weights have, with the blocks that were found and that are needed.
pub fn layer_short(format: FormatK, in_feat: usize, out_feat: usize, weights: usize) -> Refusal
    requires { (in_feat ≤ most_in) × (out_feat ≤ most_out) }
    ensures { result ≡ layer_short format in_feat out_feat weights }
{
    layouts::weights_short(format, weights, out_feat * (in_feat / 256))
}

// Why a layer of this shape says no, given so many readings, weight bytes and output places: 6, 2, 3, 4, 5, in this
// order.
#[tactic(auto, using(crate::proofs::Fits::in_sizes, crate::proofs::Fits::product_small), unfolding(crate::specs::Shapes::layer_refusal, refusals::specs::Refusals::given))]
pub fn layer_refusal(
    format: FormatK,
    s: Shape,
    readings: usize,
    weights: usize,
    places: usize,
) -> Result<(), Refusal>
    ensures { result ≡ layer_refusal format s readings weights places }
{
    if is_oversize(s) {
        return Err(Refusal::TooLarge);
    }
    if s.in_feat % 256 != 0 {
        return Err(Refusal::NotAMultiple);
    }
    if weights < weight_bytes(format, s.in_feat, s.out_feat) {
        return Err(layer_short(format, s.in_feat, s.out_feat, weights));
    }
    if readings < s.batch * s.in_feat {
        return Err(Refusal::ReadingsShort);
    }
    if places < s.batch * s.out_feat {
        return Err(Refusal::RoomShort);
    }
    Ok(())
}
