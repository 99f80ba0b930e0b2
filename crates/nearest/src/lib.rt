// From readings to nibbles of IQ4_NL: the integer of the Q8 rule, and the value of the table that is nearest to it.
#![tactic(auto)]

ghost use Rattle.std.specs.Prelude.{◌≡◌, ◌≤◌, ◌<◌, ◌+ℤ◌, length, get_or};
ghost use Rattle.std.specs.Float.{nan, binary32};
ghost use Rattle.std.specs.Float.Ieee.{mul};
ghost use Rattle.memory.specs.Lists.{table};
ghost use Rattle.nearest.specs.Nearest.{nearest, quant_iq4_nl};
ghost use Rattle.nearest.specs.Inner.{next_is_nearer};

use layouts::values_iq4_nl;

// The sum of two signed bytes, which a signed byte may be too small for.
fn sum_of(a: i8, b: i8) -> i16
    ensures { result ≡ a +ℤ b }
{
    a as i16 + b as i16
}

// 1 where the next of two values is nearer to q: q lies above the middle of the two. In the middle they are as near, and
// the lower is taken.
fn next_is_nearer(q: i8, value: i8, next: i8) -> u8
    ensures { (result ≡ next_is_nearer q value next) × (result ≤ 1) }
{
    if sum_of(value, next) < sum_of(q, q) {
        1
    } else {
        0
    }
}

// The nibble of the value nearest to q: as many values as have a next that is nearer lie below it.
fn nearest_to(q: i8) -> u8
    ensures { (result ≡ nearest q) × (result < 16) }
{
    let values = values_iq4_nl();
    let mut n: u8 = 0;
    for k in 0..15usize {
        n += next_is_nearer(q, values[k], values[k + 1]);
    }
    n
}

// The IQ4_NL nibble of p, a reading times the inverse.
fn round_iq4_nl(p: f32) -> u8
    ensures { result ≡ quant_iq4_nl p }
{
    nearest_to(readings::round_q8(p))
}

// The IQ4_NL nibbles of a block's readings, one to a place. They are not packed here: with one caller the search is
// compiled into this loop, and is done in vectors.
pub fn nibbles_iq4_nl(x: &[f32], inverse: f32) -> [u8; 32]
    requires { length x.now ≡ 32 }
    ensures { result ≡ table (λ k. quant_iq4_nl (mul binary32 (get_or x.now k nan) inverse)) 32 }
{
    let mut n = [0u8; 32];
    for k in 0..32usize {
        n[k] = round_iq4_nl(x[k] * inverse);
    }
    n
}
