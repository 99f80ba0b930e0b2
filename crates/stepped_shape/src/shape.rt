// A layer's shape: its pieces, and where their slots and their marks lie.
ghost use Rattle.std.specs.Prelude.{◌≡◌, ◌<◌};
ghost use Rattle.refusals.specs.Said.{done};
ghost use Rattle.stepped_shape.specs.Layer.{layer_of, chunks, pieces, place};
ghost use Rattle.stepped_shape.specs.Refusals.{shape_refusal};
ghost use Rattle.stepped_shape.specs.Inner.{InLayer};

// A format byte (4 is Q4_K, 5 is Q5_K, 6 is Q6_K), and how many readings go in and outputs come out.
#[derive(Clone, Copy)]
pub struct Layer {
    pub format: u8,
    pub in_feat: usize,
    pub out_feat: usize,
}

impl Layer {
    // The layer of a call's format byte and two sizes.
    pub fn of(format: u8, in_feat: usize, out_feat: usize) -> Layer
        ensures { result ≡ layer_of format in_feat out_feat }
    {
        Layer {
            format,
            in_feat,
            out_feat,
        }
    }
}

// The chunks of a row.
#[tactic(auto, unfolding(crate::specs::Layer::chunks))]
pub fn chunks_of(l: Layer) -> usize
    requires { shape_refusal l ≡ done }
    ensures { result ≡ chunks l }
{
    sums::chunks_in(l.in_feat)
}

// The piece count.
#[tactic(auto, using(crate::proofs::Shapes::few_pieces), unfolding(crate::specs::Layer::pieces))]
pub fn pieces_of(l: Layer) -> usize
    requires { shape_refusal l ≡ done }
    ensures { result ≡ pieces l }
{
    l.out_feat * chunks_of(l)
}

// The place of (row, chunk) among slots and marks.
pub fn place_of(l: Layer, row: usize, chunk: usize) -> usize
    requires { (shape_refusal l ≡ done) × InLayer l row chunk }
    ensures { (result ≡ place l row chunk) × (result < pieces l) }
{
    row * chunks_of(l) + chunk
}
