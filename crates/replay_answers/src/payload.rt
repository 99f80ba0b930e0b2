// What stands in a payload: little-endian u32s, and floats as their bits.
ghost use Rattle.std.specs.Prelude.{◌≡◌, length, get_or};
ghost use Rattle.memory.specs.Lists.{table};
ghost use Rattle.replay_answers.specs.Payload.{u32_at, float_at};
ghost use Rattle.replay_answers.specs.Same.{same_floats, same_bytes};

use crate::findings::same_bits;

// What stands in each float of lent memory before a call.
pub const STOOD: f32 = -1.5;

// The u32 at a place; 0 where the payload ends before it does.
#[tactic(auto, unfolding(crate::specs::Payload::u32_at))]
pub fn u32_at(payload: &[u8], at: usize) -> u32
    ensures { result ≡ u32_at payload.now at }
{
    let len = payload.len();
    if len < 4 {
        return 0;
    }
    if at > len - 4 {
        return 0;
    }
    numbers::le_u32(
        payload[at],
        payload[at + 1],
        payload[at + 2],
        payload[at + 3],
    )
}

// The byte at a place; 0 where the payload ends before it.
pub fn byte_at(payload: &[u8], at: usize) -> u8
    ensures { result ≡ get_or payload.now at 0 }
{
    if at < payload.len() { payload[at] } else { 0 }
}

// The payload's first floats, as many as there are places for them.
#[tactic(auto, using(memory::proofs::Filled::filling_done))]
pub fn read_floats(payload: &[u8], out: &mut [f32])
    ensures { out.new ≡ table (float_at payload.now) (length out.old) }
{
    for (i, float) in out.iter_mut().enumerate() {
        *float = halves::of_bits(u32_at(payload, 4 * i));
    }
}

// Whether the payload's first floats are these.
pub fn same_floats(payload: &[u8], floats: &[f32]) -> bool
    ensures { result ≡ same_floats payload.now floats.now }
{
    for (i, &float) in floats.iter().enumerate() {
        if !same_bits(float, halves::of_bits(u32_at(payload, 4 * i))) {
            return false;
        }
    }
    true
}

// Whether the payload's first bytes are these.
pub fn same_bytes(payload: &[u8], bytes: &[u8]) -> bool
    ensures { result ≡ same_bytes payload.now bytes.now }
{
    payload.starts_with(bytes)
}
