// The whole numbers of the formats with 32 values to a block.
ghost use Rattle.std.specs.Prelude.{◌≡◌, ◌+◌, ◌*◌, ◌%◌, ◌≤◌, ◌<◌, pos, ◌-ℤ◌, length};
ghost use Rattle.memory.specs.Lists.{table};
ghost use Rattle.layouts.specs.Of32.{values_iq4_nl, quant32};

use crate::format::Format32;

// n less k.
#[tactic(auto, using(crate::proofs::Small::difference_fits, crate::proofs::Small::difference_is))]
pub fn less(n: u8, k: u8) -> i8
    requires { (n < 64) × (k ≤ 64) }
    ensures { result ≡ pos n -ℤ pos k }
{
    n as i8 - k as i8
}

// Q4_0's whole numbers: byte k's low and high nibbles are neighbours. The loop counts to the block's length and not to
// a number, since the compiler would write out sixteen turns and make no vectors of them.
pub fn quants_q4_0(block: &[u8]) -> [i8; 32]
    requires { length block.now ≡ 18 }
    ensures { result ≡ table (quant32 Format32.Q40 block.now) 32 }
{
    let mut q = [0i8; 32];
    for k in 0..block.len() - 2 {
        let b = block[2 + k];
        q[2 * k] = less(b % 16, 8);
        q[2 * k + 1] = less(b / 16, 8);
    }
    q
}

// The same in GGML's order: byte k's nibbles are at places k and k + 16.
pub fn quants_q4_0_ggml(block: &[u8]) -> [i8; 32]
    requires { length block.now ≡ 18 }
    ensures { result ≡ table (quant32 Format32.Q40Ggml block.now) 32 }
{
    let mut q = [0i8; 32];
    for k in 0..block.len() - 2 {
        let b = block[2 + k];
        q[k] = less(b % 16, 8);
        q[k + 16] = less(b / 16, 8);
    }
    q
}

// A nibble with the lowest bit of h above it, less 16.
fn with_high_bit(nibble: u8, h: u32) -> i8
    requires { nibble < 16 }
    ensures { result ≡ pos (nibble + 16 * (h % 2)) -ℤ pos 16 }
{
    less(nibble + (16 * (h % 2)) as u8, 16)
}

// Q5_0's whole numbers: byte k's nibbles are at places k and k + 16, each with its high bit.
pub fn quants_q5_0(block: &[u8]) -> [i8; 32]
    requires { length block.now ≡ 22 }
    ensures { result ≡ table (quant32 Format32.Q50 block.now) 32 }
{
    let high = numbers::le_u32(block[2], block[3], block[4], block[5]);
    let mut q = [0i8; 32];
    for k in 0..16usize {
        let b = block[6 + k];
        q[k] = with_high_bit(b % 16, high >> k);
        q[k + 16] = with_high_bit(b / 16, high >> (k + 16));
    }
    q
}

// Q8_0's whole numbers: signed bytes.
pub fn quants_q8_0(block: &[u8]) -> [i8; 32]
    requires { length block.now ≡ 34 }
    ensures { result ≡ table (quant32 Format32.Q80 block.now) 32 }
{
    let mut q = [0i8; 32];
    for (k, x) in q.iter_mut().enumerate() {
        *x = numbers::signed_byte(block[2 + k]);
    }
    q
}

// The sixteen values of IQ4_NL. They rise.
const VALUES_IQ4_NL: [i8; 16] = [
    -127, -104, -83, -65, -49, -35, -22, -10, 1, 13, 25, 38, 53, 69, 89, 113,
];

// The table, which a loop takes once: where it is named inside one, the compiler writes it to the stack at every turn.
#[tactic(auto, unfolding(crate::specs::Of32::values_iq4_nl))]
pub fn values_iq4_nl() -> [i8; 16]
    ensures { result ≡ values_iq4_nl }
{
    VALUES_IQ4_NL
}
