// Kind 2, a window: in_feat f32 values for the latest layer.
ghost use Rattle.std.specs.Prelude.{◌≡◌, ◌*◌, ◌≤◌, length};
ghost use Rattle.memory.specs.Lists.{table};
ghost use Rattle.records.specs.Kinds.{readings_in, reading_at, has_zero, window_found};

use crate::reader::Item;
use numbers::bits_at;
use refusals::Refusal;

// The part of a window's payload that has its readings: all of it.
pub fn readings_of(p: &[u8]) -> &[u8]
    ensures { result.now ≡ readings_in p.now }
{
    p
}

// The first readings, as many as x has places.
#[tactic(auto, using(memory::proofs::Filled::filling_done))]
pub fn readings(bytes: &[u8], x: &mut [f32])
    requires { length x.old * 4 ≤ length bytes.now }
    ensures { x.new ≡ table (reading_at bytes.now) (length x.old) }
{
    for (k, value) in x.iter_mut().enumerate() {
        *value = halves::of_bits(bits_at(bytes, k * 4));
    }
}

// Whether one of the first n readings has all bits zero. All are looked at, also behind one that is found, so that the
// machine looks at a vector of them at a time.
fn has_zero(bytes: &[u8], n: usize) -> bool
    requires { n * 4 ≤ length bytes.now }
    ensures { result ≡ has_zero bytes.now n }
{
    let mut found = false;
    for k in 0..n {
        if bits_at(bytes, k * 4) == 0 {
            found = true;
        }
    }
    found
}

// The window record whose payload is p, after a latest layer of so many readings, 0 where there is none yet.
#[tactic(auto, unfolding(crate::specs::Kinds::window_found, refusals::specs::Refusals::given))]
pub(crate) fn window_item(p: &[u8], latest: usize) -> Result<Item, Refusal>
    ensures { result ≡ window_found p.now latest }
{
    if latest < 1 {
        return Err(Refusal::Malformed);
    }
    let bytes = readings_of(p);
    if bytes.len() / 4 != latest {
        return Err(Refusal::Malformed);
    }
    if bytes.len() % 4 != 0 {
        return Err(Refusal::Malformed);
    }
    if has_zero(bytes, latest) {
        return Ok(Item::WarmUp);
    }
    Ok(Item::Window)
}
