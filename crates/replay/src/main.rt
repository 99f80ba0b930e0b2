// The Rust's stored answers, replayed.
//
// Standard input is a sample of them, the file `stdin` beside src/. The oracle made it by asking the Rust itself, and
// with it `stdout`, the text that is to be printed: `oracle/run sample` makes both again. A record is a tag byte, the
// payload's length as a little-endian u32, and the payload. The tag says the call; the payload is the call's input,
// then the answer, which is the Rust's, or document 01's refusal where the Rust has none. Behind the records of a call
// stands one with the tag 255, whose payload is the call's name. Behind those of all calls stand answers that are made
// wrong, some of each family of calls, so that a judge that finds everything the same is seen.
//
// For each call a line says how many answers were replayed, and how many of ours differ: neither the same bits nor both
// NaN. Where the sample cannot be read on, a last line says why, and at which byte.
#![tactic(auto)]

mod calls;
mod layers;
mod records;
mod report;
mod stepped_layer;

use replay_answers::Finding;

// How far the replay is: the byte at which the next record begins, and of the call whose records are read the answers
// so far and how many of them differ.
#[derive(Clone, Copy)]
struct Replay {
    at: u64,
    answers: u64,
    differ: u64,
}

impl Replay {
    fn begin() -> Self {
        Replay {
            at: 0,
            answers: 0,
            differ: 0,
        }
    }

    // Past a record with a payload of `len` bytes.
    fn past(mut self, len: usize) -> Self {
        self.at = std::num::wrapping_add_u64(std::num::wrapping_add_u64(self.at, 5), len as u64);
        self
    }

    // One answer more; `differs` is 1 where ours differs, and otherwise 0.
    fn counted(mut self, differs: u64) -> Self {
        self.answers = std::num::wrapping_add_u64(self.answers, 1);
        self.differ = std::num::wrapping_add_u64(self.differ, differs);
        self
    }

    // The call's line, whose name is printed, printed to its end.
    fn named(mut self, rt: &impl Print) -> Self {
        report::print_counts(rt, self.answers, self.differ);
        self.answers = 0;
        self.differ = 0;
        self
    }
}

// The next record, counted; none at the end of the replay.
fn step(rt: &HostRuntime, buf: &mut [u8], replay: Replay) -> Option<Replay> {
    let record = records::next(rt, buf);
    let finding = record.finding;
    match finding {
        Finding::Same => Some(replay.past(record.len).counted(0)),
        Finding::Differs => Some(replay.past(record.len).counted(1)),
        Finding::Name => Some(replay.past(record.len).named(rt)),
        _ => {
            report::print_end(rt, finding, record.tag, replay.at);
            None
        }
    }
}

// A proved loop has to end, and nothing says that the input does: its turns are counted.
fn replay_all(rt: &HostRuntime, buf: &mut [u8]) {
    let mut replay = Replay::begin();
    for _ in 0..u64::MAX {
        let Some(next) = step(rt, buf, replay) else {
            return;
        };
        replay = next;
    }
}

fn main(rt: HostRuntime) {
    // Room for the payload of a dot that is longer than a chunk: 8,193 floats, twice.
    let mut buf = [0u8; 131072];
    replay_all(&rt, &mut buf);
}
