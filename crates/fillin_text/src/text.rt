// Pieces of a line: bytes, decimal numbers and hexadecimal digits, each laid behind what the line already holds.
ghost use Rattle.std.specs.Prelude.{◌≡◌, ◌+◌, ◌<◌, ◌≤◌, length};
ghost use Rattle.std.specs.Float.{binary32};
ghost use Rattle.std.specs.Float.Ieee.{to_bits};
ghost use Rattle.fillin_text.specs.Text.{laid, field, hex_digit, hex_field};

// Lays text into the line from `at` on. Returns the place behind it.
#[tactic(auto, unfolding(crate::specs::Text::laid))]
pub fn put(line: &mut [u8], at: usize, text: &[u8]) -> usize
    requires { at + length text.now ≤ length line.old }
    ensures line_after { line.new ≡ laid line.old at text.now }
    ensures value { result ≡ at + length text.now }
{
    let behind = at + text.len();
    line[at..behind].copy_from_slice(text);
    behind
}

// Lays a space and the decimal digits of n, at most 21 bytes.
pub fn put_field(line: &mut [u8], at: usize, n: u64) -> usize
    requires { at + 21 ≤ length line.old }
    ensures line_after { line.new ≡ laid line.old at (field n) }
    ensures value { (result ≡ at + length (field n)) × (result ≤ at + 21) }
{
    let mut digits = [0u8; 20];
    let n_digits = io::decimal(n, &mut digits);
    let behind = put(line, at, b" ");
    put(line, behind, &digits[..n_digits])
}

// The ASCII code of an upper-case hexadecimal digit.
#[tactic(auto, unfolding(crate::specs::Text::hex_digit))]
fn hex_digit(d: u32) -> u8
    requires { d < 16 }
    ensures { result ≡ hex_digit d }
{
    if d < 10 { 48 + d as u8 } else { 55 + d as u8 }
}

// A space and the eight hexadecimal digits of 32 bits.
fn hex_field(bits: u32) -> [u8; 9]
    ensures { result ≡ hex_field bits }
{
    [
        b' ',
        hex_digit(bits / 0x1000_0000),
        hex_digit(bits / 0x100_0000 % 16),
        hex_digit(bits / 0x10_0000 % 16),
        hex_digit(bits / 0x1_0000 % 16),
        hex_digit(bits / 0x1000 % 16),
        hex_digit(bits / 0x100 % 16),
        hex_digit(bits / 0x10 % 16),
        hex_digit(bits % 16),
    ]
}

// Lays a space and the eight hexadecimal digits of an output's bits, 9 bytes.
pub fn put_output(line: &mut [u8], at: usize, output: f32) -> usize
    requires { at + 9 ≤ length line.old }
    ensures line_after { line.new ≡ laid line.old at (hex_field (to_bits binary32 output)) }
    ensures value { result ≡ at + 9 }
{
    let text = hex_field(halves::bits_of(output));
    put(line, at, &text)
}
