// Why a `_cpu` layer says no.
ghost use Rattle.std.specs.Prelude.{◌≡◌, ◌^◌, ◌<◌};
ghost use Rattle.layers_cpu_checks.specs.Refusals.{other_weights, cpu_refusal};

use layers_shape::Shape;
use layouts::{Format, Format32, FormatK};
use refusals::Refusal;

// The refusal of any other weights than needed: there are fewer, or there are more.
fn other_weights(found: usize, needed: usize) -> Refusal
    ensures { result ≡ other_weights found needed }
{
    if found < needed {
        return refusals::WEIGHTS_SHORT;
    }
    Refusal::WeightsLong
}

// Over a K format: 6, 4, 5, 1, 3 or 14, and 5 for scratch, in this order. A slice has fewer than 2^63
// places, so the product of its blocks fits.
#[tactic(auto, using(layers_shape::proofs::Fits::in_sizes, layers_shape::proofs::Fits::product_small, layouts::proofs::Sizes::values_fit, layouts::proofs::Sizes::sizes), unfolding(crate::specs::Refusals::cpu_refusal, refusals::specs::Refusals::given))]
fn cpu_k_refusal(
    format: FormatK,
    s: Shape,
    readings: usize,
    weights: usize,
    places: usize,
    scratch: usize,
) -> Result<(), Refusal>
    requires { weights < 2 ^ 63 }
    ensures { result ≡ cpu_refusal (Format.OfK format) s readings weights places scratch }
{
    if layers_shape::is_oversize(s) {
        return Err(Refusal::TooLarge);
    }
    if readings != s.batch * s.in_feat {
        return Err(Refusal::ReadingsShort);
    }
    if places != s.batch * s.out_feat {
        return Err(Refusal::RoomShort);
    }
    let size = layouts::block_bytes(Format::OfK(format));
    if weights % size != 0 {
        return Err(Refusal::NotWholeBlocks);
    }
    let found = weights / size * 256;
    let needed = s.out_feat * s.in_feat;
    if found != needed {
        return Err(other_weights(found, needed));
    }
    if scratch < s.in_feat {
        return Err(Refusal::RoomShort);
    }
    Ok(())
}

// Over a 32-value format: 6, 2, 3 or 14, 4, 5, and 5 for scratch, in this order.
#[tactic(auto, using(layers_shape::proofs::Fits::in_sizes, layers_shape::proofs::Fits::product_small, layouts::proofs::Sizes::least_32), unfolding(crate::specs::Refusals::cpu_refusal, refusals::specs::Refusals::given))]
fn cpu_32_refusal(
    format: Format32,
    s: Shape,
    readings: usize,
    weights: usize,
    places: usize,
    scratch: usize,
) -> Result<(), Refusal>
    ensures { result ≡ cpu_refusal (Format.Of32 format) s readings weights places scratch }
{
    if layers_shape::is_oversize(s) {
        return Err(Refusal::TooLarge);
    }
    if s.in_feat % 32 != 0 {
        return Err(Refusal::NotAMultiple);
    }
    let size = layouts::block_bytes(Format::Of32(format));
    let needed = s.out_feat * (s.in_feat / 32 * size);
    if weights != needed {
        return Err(other_weights(weights, needed));
    }
    if readings != s.batch * s.in_feat {
        return Err(Refusal::ReadingsShort);
    }
    if places != s.batch * s.out_feat {
        return Err(Refusal::RoomShort);
    }
    if scratch < s.in_feat {
        return Err(Refusal::RoomShort);
    }
    Ok(())
}

pub fn cpu_refusal(
    format: Format,
    s: Shape,
    readings: usize,
    weights: usize,
    places: usize,
    scratch: usize,
) -> Result<(), Refusal>
    requires { weights < 2 ^ 63 }
    ensures { result ≡ cpu_refusal format s readings weights places scratch }
{
    match format {
        Format::Of32(f) => cpu_32_refusal(f, s, readings, weights, places, scratch),
        Format::OfK(f) => cpu_k_refusal(f, s, readings, weights, places, scratch),
    }
}
