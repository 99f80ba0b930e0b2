// Kind 1, a layer: format byte, u32 in_feat, u32 out_feat, then exactly the weights.
ghost use Rattle.std.specs.Prelude.{◌≡◌};
ghost use Rattle.records.specs.Kinds.{weights_in, sizes_refusal, layer_found};

use crate::reader::Item;
use layouts::FormatK;
use numbers::u32_at;
use refusals::Refusal;

// The bytes before a layer's weights.
const HEAD: usize = 9;

// A layer record's in_feat at most.
pub const MOST_LAYER_IN: usize = 2_048;
// A layer record's out_feat at most.
pub const MOST_LAYER_OUT: usize = 16;
// The bytes of a layer's weights at most: 16 rows of 8 blocks of 210 bytes.
pub const MOST_WEIGHTS: usize = 26_880;

// The weights of a layer's payload, as a part of it.
pub fn weights(p: &[u8]) -> &[u8]
    ensures { result.now ≡ weights_in p.now }
{
    if p.len() < HEAD { &p[..0] } else { &p[HEAD..] }
}

// Why a layer's sizes are refused.
#[tactic(auto, unfolding(crate::specs::Kinds::sizes_refusal, crate::specs::Kinds::up_to, refusals::specs::Refusals::given))]
fn sizes_refusal(in_feat: usize, out_feat: usize) -> Result<(), Refusal>
    ensures { result ≡ sizes_refusal in_feat out_feat }
{
    if in_feat < 1 {
        return Err(Refusal::TooLarge);
    }
    if in_feat > MOST_LAYER_IN {
        return Err(Refusal::TooLarge);
    }
    if out_feat < 1 {
        return Err(Refusal::TooLarge);
    }
    if out_feat > MOST_LAYER_OUT {
        return Err(Refusal::TooLarge);
    }
    if in_feat % 256 != 0 {
        return Err(Refusal::NotAMultiple);
    }
    Ok(())
}

// The layer record whose payload is p.
#[tactic(auto, using(crate::proofs::Taken::sizes_in, refusals::proofs::Laws::handed_on), unfolding(crate::specs::Kinds::layer_found, refusals::specs::Refusals::given, refusals::specs::Refusals::or_else))]
pub(crate) fn layer_item(p: &[u8]) -> Result<Item, Refusal>
    ensures { result ≡ layer_found p.now }
{
    if p.len() < HEAD {
        return Err(Refusal::Malformed);
    }
    let format = p[0];
    let known = FormatK::try_from(format)?;
    let in_feat = u32_at(p, 1);
    let out_feat = u32_at(p, 5);
    sizes_refusal(in_feat, out_feat)?;
    if p.len() - HEAD != layers_shape::weight_bytes(known, in_feat, out_feat) {
        return Err(Refusal::Malformed);
    }
    Ok(Item::Layer {
        format,
        in_feat,
        out_feat,
    })
}
