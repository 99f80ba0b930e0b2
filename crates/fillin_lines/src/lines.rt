// A line of the transcript: what it says, and its text.
ghost use Rattle.std.specs.Prelude.{◌≡◌, ◌≤◌, length};
ghost use Rattle.fillin_text.specs.Text.{laid};
ghost use Rattle.fillin_lines.specs.Lines.{most_line, text_of, is_last};

use crate::whole::{end_line, layer_line, refused_line, stop_line, window_line};
use refusals::Refusal;

// What a line says.
#[derive(Clone, Copy)]
pub enum Line {
    // A layer.
    Layer {
        format: u8,
        in_feat: usize,
        out_feat: usize,
    },
    // A window's number; its outputs stand beside the line.
    Window(u64),
    // The number of a window with warm-up readings.
    WarmUp(u64),
    // Why a record is refused, and its byte offset.
    Stop {
        why: Refusal,
        offset: u64,
    },
    // The windows answered and refused.
    End {
        answered: u64,
        refused: u64,
    },
}

// Whether nothing is written behind a line.
pub fn is_last(line: Line) -> bool
    ensures { result ≡ is_last line }
{
    match line {
        Line::Layer { .. } => false,
        Line::Window(_) => false,
        Line::WarmUp(_) => false,
        Line::Stop { .. } => true,
        Line::End { .. } => true,
    }
}

// Writes a line at the front of a buffer; the outputs are a window's. The line's length.
pub fn write_line(line: Line, outputs: &[f32], buf: &mut [u8]) -> usize
    requires { (most_line ≤ length buf.old) × (length outputs.now ≤ 16) }
    ensures buf_after { buf.new ≡ laid buf.old 0 (text_of line outputs.now) }
    ensures value { (result ≡ length (text_of line outputs.now)) × (result ≤ most_line) }
{
    match line {
        Line::Layer {
            format,
            in_feat,
            out_feat,
        } => layer_line(buf, format, in_feat, out_feat),
        Line::Window(number) => window_line(buf, number, outputs),
        Line::WarmUp(number) => refused_line(buf, number),
        Line::Stop { why, offset } => stop_line(buf, why, offset),
        Line::End { answered, refused } => end_line(buf, answered, refused),
    }
}
