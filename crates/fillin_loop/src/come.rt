// The records that have come: each is answered, and its line stands behind the others.
ghost use Rattle.std.specs.Prelude.{◌≡◌, ◌+◌, ◌^◌, ◌≤◌, ◌<◌, length};
ghost use Rattle.fillin_lines.specs.Lines.{most_line};
ghost use Rattle.fillin_answer.specs.Kept.{Ready, Carried};
ghost use Rattle.fillin_loop.specs.Come.{most_lines, course_after, is_over, so_far, nothing_yet, with_one_more, answering, Prepared, Reached};

use crate::ending::Ending;
use fillin_answer::State;
use fillin_lines::{Line, MOST_LINE};

// The lines that are written at once, at most: what is read ahead has no more windows.
const MOST_LINES: usize = 64;
// Room for them.
pub(crate) const ROOM: usize = 11_008;

// How it goes on: with the next record, when more has come, or not at all.
#[derive(Clone, Copy)]
pub(crate) enum Course {
    On,
    More,
    Over(Ending),
}

impl Course {
    // After a line: on with the next record, or, behind the last one, over by `end` or by `stop`.
    fn after(line: Line) -> Self
        ensures { result ≡ course_after line }
    {
        if !fillin_lines::is_last(line) {
            return Course::On;
        }
        match line {
            Line::End { .. } => Course::Over(Ending::Ended),
            _ => Course::Over(Ending::Stopped),
        }
    }

    fn is_over(self) -> bool
        ensures { result ≡ is_over self }
    {
        match self {
            Course::On => false,
            Course::More => false,
            Course::Over(_) => true,
        }
    }
}

// What is answered: what is kept, how many of the bytes that came are answered, how many bytes of text the lines have,
// and how it goes on.
#[derive(Clone, Copy)]
pub(crate) struct Answered {
    pub state: State,
    pub bytes: usize,
    pub text: usize,
    pub course: Course,
}

// Answers one record, and puts its line behind the others.
fn answer_one(done: Answered, record: &[u8], weights: &mut [u8], lines: &mut [u8]) -> Answered
    requires { Ready done.state (length «record».now) (length weights.old) most_line
        × (done.text + most_line ≤ length lines.old) × (done.bytes + length «record».now < 2 ^ 64) }
    ensures lines_after { so_far result weights.new lines.new
        ≡ with_one_more (so_far done weights.old lines.old) «record».now }
    ensures carried { Carried done.state (length «record».now) result.state
        × (result.text ≤ done.text + most_line) }
{
    let from = done.text;
    let end = from + MOST_LINE;
    let reply = fillin_answer::answer(done.state, record, weights, &mut lines[from..end]);
    let state = reply.state;
    Answered {
        state,
        bytes: done.bytes + record.len(),
        text: from + reply.length,
        course: Course::after(reply.line),
    }
}

// Answers the records that have come, from the first byte on, up to one that has not all come, or to a last line, or as
// many as there is room for lines. The lines' text stands at the front of `lines`.
pub(crate) fn answer_come(
    st: State,
    come: &[u8],
    ended: bool,
    weights: &mut [u8],
    lines: &mut [u8],
) -> Answered
    requires { Prepared st (length come.now) (length weights.old) (length lines.old) }
    ensures lines_after { so_far result weights.new lines.new
        ≡ answering come.now ended most_lines (nothing_yet st weights.old) }
    ensures reached { Reached st (length come.now) (length lines.new) result }
{
    let mut done = Answered {
        state: st,
        bytes: 0,
        text: 0,
        course: Course::On,
    };
    for _ in 0..MOST_LINES {
        let from = done.bytes;
        let Some(size) = frames::next_record(&come[from..], ended) else {
            let state = done.state;
            return Answered {
                state,
                bytes: from,
                text: done.text,
                course: Course::More,
            };
        };
        let end = from + size;
        done = answer_one(done, &come[from..end], weights, lines);
        let course = done.course;
        if course.is_over() {
            return done;
        }
    }
    done
}
