// A row that may start or end inside a block, and a row of whole blocks.
ghost use Rattle.std.specs.Prelude.{◌≡◌, ◌+◌, ◌^◌, ◌≤◌, ◌<◌, length};
ghost use Rattle.memory.specs.Lists.{table};
ghost use Rattle.layouts.specs.Formats.{block_bytes, block_values};
ghost use Rattle.layouts.specs.Weights.{value_in, weight_at, values_of};

use decoders::decode_blocks;
use layouts::Format;

// The values of a block from place `from` on, as many as there is room for.
fn decode_within(format: Format, block: &[u8], from: usize, out: &mut [f32])
    requires { (length block.now ≡ block_bytes format) × (from + length out.old ≤ block_values format) }
    ensures { out.new
        ≡ table (λ i. value_in format block.now (from + i)) (length out.old) }
{
    let values = layouts::block_values(format);
    let mut whole = [0.0f32; 256];
    decode_blocks(format, block, &mut whole[..values]);
    for (i, value) in out.iter_mut().enumerate() {
        *value = whole[from + i];
    }
}

// The weights from place `from` on, as many as there is room for, a block at a time: a row may start or end inside a
// block.
#[tactic(auto, using(layouts::proofs::Sizes::sizes, crate::proofs::Turns::block_within, crate::proofs::Turns::some_taken))]
fn decode_parts(format: Format, w: &[u8], from: usize, out: &mut [f32])
    requires { (from + length out.old ≤ values_of format (length w.now)) × (from + length out.old < 2 ^ 63) }
    ensures { out.new
        ≡ table (λ i. weight_at format w.now (from + i)) (length out.old) }
{
    let size = layouts::block_bytes(format);
    let values = layouts::block_values(format);
    let n = out.len();
    let mut at: usize = 0;
    while at < n {
        let b = (from + at) / values;
        let inside = (from + at) % values;
        let end = at + (values - inside).min(n - at);
        let start = b * size;
        let stop = start + size;
        decode_within(format, &w[start..stop], inside, &mut out[at..end]);
        at = end;
    }
}

// The same, but a row of whole blocks is decoded at once.
#[tactic(auto, using(layouts::proofs::Sizes::sizes, crate::proofs::WholeRows::row_fits))]
pub fn decode_row(format: Format, w: &[u8], from: usize, out: &mut [f32])
    requires { (from + length out.old ≤ values_of format (length w.now)) × (from + length out.old < 2 ^ 63) }
    ensures { out.new
        ≡ table (λ i. weight_at format w.now (from + i)) (length out.old) }
{
    let size = layouts::block_bytes(format);
    let values = layouts::block_values(format);
    let n = out.len();
    if from % values + n % values > 0 {
        decode_parts(format, w, from, out);
        return;
    }
    let start = from / values * size;
    let stop = start + n / values * size;
    decode_blocks(format, &w[start..stop], out);
}
