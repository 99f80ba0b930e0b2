// The five lines of document 01, each from the front of the buffer; the answer is the line's length.
ghost use Rattle.std.specs.Prelude.{◌≡◌, ◌≤◌, ◌++◌, length};
ghost use Rattle.fillin_text.specs.Text.{laid, field};
ghost use Rattle.fillin_lines.specs.Lines.{most_line, newline};
ghost use Rattle.fillin_lines.specs.Lines.{layer_line, window_line, refused_line, stop_line, end_line};

use fillin_text::{put, put_field, put_output};
use refusals::Refusal;

// The longest line: a window with sixteen outputs has 7 + 20 + 16 * 9 + 1 bytes at most.
pub const MOST_LINE: usize = 172;

// `layer`, format, in_feat, out_feat.
pub(crate) fn layer_line(line: &mut [u8], format: u8, in_feat: usize, out_feat: usize) -> usize
    requires { most_line ≤ length line.old }
    ensures line_after { line.new ≡ laid line.old 0 (layer_line format in_feat out_feat) }
    ensures value { (result ≡ length (layer_line format in_feat out_feat)) × (result ≤ most_line) }
{
    let a = put(line, 0, b"layer");
    let b = put_field(line, a, format as u64);
    let c = put_field(line, b, in_feat as u64);
    let d = put_field(line, c, out_feat as u64);
    put(line, d, b"\n")
}

// `window`, its number, then each output's bits.
pub(crate) fn window_line(line: &mut [u8], number: u64, outputs: &[f32]) -> usize
    requires { (most_line ≤ length line.old) × (length outputs.now ≤ 16) }
    ensures line_after { line.new ≡ laid line.old 0 (window_line number outputs.now) }
    ensures value { (result ≡ length (window_line number outputs.now)) × (result ≤ most_line) }
{
    let a = put(line, 0, b"window");
    let mut at = put_field(line, a, number);
    for &output in outputs {
        at = put_output(line, at, output);
    }
    put(line, at, b"\n")
}

// `window`, its number, `refused 13`.
pub(crate) fn refused_line(line: &mut [u8], number: u64) -> usize
    requires { most_line ≤ length line.old }
    ensures line_after { line.new ≡ laid line.old 0 (refused_line number) }
    ensures value { (result ≡ length (refused_line number)) × (result ≤ most_line) }
{
    let a = put(line, 0, b"window");
    let b = put_field(line, a, number);
    put(line, b, b" refused 13\n")
}

// A word of at most six letters, two numbers and a newline.
fn word_and_two(line: &mut [u8], word: &[u8], one: u64, two: u64) -> usize
    requires { (most_line ≤ length line.old) × (length word.now ≤ 6) }
    ensures line_after { line.new
        ≡ laid line.old 0 (word.now ++ (field one ++ (field two ++ newline))) }
    ensures value { (result ≡ length (word.now ++ (field one ++ (field two ++ newline)))) × (result ≤ most_line) }
{
    let a = put(line, 0, word);
    let b = put_field(line, a, one);
    let c = put_field(line, b, two);
    put(line, c, b"\n")
}

// `stop`, the refusal's number, the record's byte offset.
#[tactic(auto, unfolding(crate::specs::Lines::stop_line))]
pub(crate) fn stop_line(line: &mut [u8], why: Refusal, offset: u64) -> usize
    requires { most_line ≤ length line.old }
    ensures line_after { line.new ≡ laid line.old 0 (stop_line why offset) }
    ensures value { (result ≡ length (stop_line why offset)) × (result ≤ most_line) }
{
    word_and_two(line, b"stop", why.number() as u64, offset)
}

// `end`, windows answered, windows refused.
#[tactic(auto, unfolding(crate::specs::Lines::end_line))]
pub(crate) fn end_line(line: &mut [u8], answered: u64, refused: u64) -> usize
    requires { most_line ≤ length line.old }
    ensures line_after { line.new ≡ laid line.old 0 (end_line answered refused) }
    ensures value { (result ≡ length (end_line answered refused)) × (result ≤ most_line) }
{
    word_and_two(line, b"end", answered, refused)
}
