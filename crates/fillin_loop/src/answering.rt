// What has come is answered, its lines are written, and then more is read.
ghost use Rattle.std.specs.Prelude.{◌*◌, ◌^◌, ◌≤◌, ◌<◌, length, OnOk};
ghost use Rattle.std.specs.Io.KnownBytes.{Appends};
ghost use Rattle.frames.specs.Frame.{most_record};
ghost use Rattle.records.specs.Kinds.{most_weights};
ghost use Rattle.fillin_lines.specs.Lines.{most_line};
ghost use Rattle.fillin_loop.specs.Come.{most_lines};

use crate::come;
use crate::come::{Course, answer_come};
use crate::ending::{Ending, too_many, unreadable, unwritable};
use crate::input::{Desk, ROOM, nothing_read, read_on};
use crate::progress::Counter;
use std::io;
use std::io::{IsTerminal, Read, Stderr, Write};

// A proved loop has to end, and nothing says that the input does: so many turns are taken at most, 2^46, each of which
// reads once or writes lines. At a million a second they take two years.
const MOST_TURNS: u64 = 70_368_744_177_664;

// Writes text, of which the writer holds nothing back.
fn write_out<W: Write>(output: &mut W, text: &[u8]) -> io::Result<()>
    ensures { OnOk result (Appends (W.contents output.old) (W.contents output.new) text.now) }
{
    output.write_all(text)?;
    output.flush()
}

// Answers records until one ends the transcript, or reading or writing fails. Lines are written before more is read:
// none is held back while the input is waited for.
fn answer_records<R: Read + Drop, W: Write + IsTerminal + Drop>(
    desk: Desk<R, W>,
    errors: Stderr,
    buf: &mut [u8],
    weights: &mut [u8],
    lines: &mut [u8],
) -> Ending
    requires { (0 < desk.most) × (most_record ≤ length buf.old) × (length buf.old ≤ 2 ^ 17)
        × (most_weights ≤ length weights.old) × (most_lines * most_line ≤ length lines.old) }
{
    let Desk {
        mut input,
        mut output,
        most,
    } = desk;
    let mut st = fillin_answer::start();
    let mut progress = Counter::begin(errors, &output);
    let mut unread = nothing_read();
    for _ in 0..MOST_TURNS {
        let from = unread.from;
        let to = unread.to;
        let done = answer_come(st, &buf[from..to], unread.ended, weights, lines);
        let text = done.text;
        if let Err(why) = write_out(&mut output, &lines[..text]) {
            return unwritable(progress, why);
        }
        let state = done.state;
        st = state;
        unread.from = from + done.bytes;
        progress = progress.after(st.answered + st.refused);
        let course = done.course;
        match course {
            Course::On => continue,
            Course::More => {}
            Course::Over(ending) => {
                progress.end();
                return ending;
            }
        }
        unread = match read_on(&mut input, most, buf, unread) {
            Ok(more) => more,
            Err(why) => return unreadable(progress, why),
        };
    }
    too_many(progress)
}

// Reads records, and writes a line for each layer and window, and a last line that says how it ended. What goes wrong is
// said on standard error.
pub fn fill_in<R: Read + Drop, W: Write + IsTerminal + Drop>(
    desk: Desk<R, W>,
    errors: Stderr,
) -> Ending
    requires { 0 < desk.most }
{
    let mut buf = [0u8; ROOM];
    let mut weights = [0u8; records::MOST_WEIGHTS];
    let mut lines = [0u8; come::ROOM];
    answer_records(desk, errors, &mut buf, &mut weights, &mut lines)
}
