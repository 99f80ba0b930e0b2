// The whole numbers of the K formats, 256 values to a block.
ghost use Rattle.std.specs.Prelude.{◌≡◌, ◌+◌, ◌*◌, ◌<◌, pos, ◌-ℤ◌, length};
ghost use Rattle.memory.specs.Lists.{table};
ghost use Rattle.layouts.specs.K.{quant_q4k, quant_q5k, quant_q6k};

use layouts::less;

// Q4_K's 256 whole numbers, one of each sub-block a turn: eight streams, which are vectors.
pub fn quants_q4k(block: &[u8]) -> [u8; 256]
    requires { length block.now ≡ 144 }
    ensures { result ≡ table (quant_q4k block.now) 256 }
{
    let mut q = [0u8; 256];
    for l in 0..32usize {
        let a = block[16 + l];
        let b = block[48 + l];
        let c = block[80 + l];
        let d = block[112 + l];
        q[l] = a % 16;
        q[32 + l] = a / 16;
        q[64 + l] = b % 16;
        q[96 + l] = b / 16;
        q[128 + l] = c % 16;
        q[160 + l] = c / 16;
        q[192 + l] = d % 16;
        q[224 + l] = d / 16;
    }
    q
}

// Q5_K's 256 whole numbers, one of each sub-block a turn: byte l of the fifth bits has one for each.
pub fn quants_q5k(block: &[u8]) -> [u8; 256]
    requires { length block.now ≡ 176 }
    ensures { result ≡ table (quant_q5k block.now) 256 }
{
    let mut q = [0u8; 256];
    for l in 0..32usize {
        let h = block[16 + l];
        let a = block[48 + l];
        let b = block[80 + l];
        let c = block[112 + l];
        let d = block[144 + l];
        q[l] = a % 16 + 16 * (h % 2);
        q[32 + l] = a / 16 + 16 * (h / 2 % 2);
        q[64 + l] = b % 16 + 16 * (h / 4 % 2);
        q[96 + l] = b / 16 + 16 * (h / 8 % 2);
        q[128 + l] = c % 16 + 16 * (h / 16 % 2);
        q[160 + l] = c / 16 + 16 * (h / 32 % 2);
        q[192 + l] = d % 16 + 16 * (h / 64 % 2);
        q[224 + l] = d / 16 + 16 * (h / 128 % 2);
    }
    q
}

// A nibble with a bit pair above it, less 32.
fn six_bits(nibble: u8, pair: u8) -> i8
    requires { (nibble < 16) × (pair < 4) }
    ensures { result ≡ pos (nibble + 16 * pair) -ℤ pos 32 }
{
    less(nibble + 16 * pair, 32)
}

// Q6_K's 256 whole numbers, four of each half a turn.
pub fn quants_q6k(block: &[u8]) -> [i8; 256]
    requires { length block.now ≡ 210 }
    ensures { result ≡ table (quant_q6k block.now) 256 }
{
    let mut q = [0i8; 256];
    for l in 0..32usize {
        let a = block[l];
        let b = block[32 + l];
        let c = block[64 + l];
        let d = block[96 + l];
        let h = block[128 + l];
        let g = block[160 + l];
        q[l] = six_bits(a % 16, h % 4);
        q[32 + l] = six_bits(b % 16, h / 4 % 4);
        q[64 + l] = six_bits(a / 16, h / 16 % 4);
        q[96 + l] = six_bits(b / 16, h / 64 % 4);
        q[128 + l] = six_bits(c % 16, g % 4);
        q[160 + l] = six_bits(d % 16, g / 4 % 4);
        q[192 + l] = six_bits(c / 16, g / 16 % 4);
        q[224 + l] = six_bits(d / 16, g / 64 % 4);
    }
    q
}
