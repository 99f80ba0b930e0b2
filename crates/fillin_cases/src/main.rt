// Record files, each answered by the program's own loop.
//
// Standard input is a container of them: a byte that says how a file is answered, its length as a little-endian u32,
// and its bytes. For each answer a line says its number, from 1; the transcript follows; and then a line with the
// status that a program ends with so. Last come an input that cannot be read and an output that cannot be written.
#![tactic(auto)]

mod answers;
mod container;

use container::answer_container;
use input_bytes::read_full;
use std::io;

// Room for the container.
const MOST_INPUT: usize = 400_000;

fn main(rt: HostRuntime) -> io::Result<()> {
    let mut input = [0u8; MOST_INPUT];
    let length = read_full(&mut rt.stdin(), &mut input);
    let number = answer_container(&rt, &input[..length])?;
    answers::answer_neither(&rt, number)
}
