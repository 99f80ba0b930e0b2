// What an input gives, read into a lent buffer.
#![tactic(auto)]

ghost use Rattle.std.specs.Prelude.{◌≤◌, length};

use std::io::{ErrorKind, Read};

// Reads until the buffer is full, the input ends or a read fails. How many bytes then stand in front.
pub fn read_full<R: Read>(input: &mut R, buf: &mut [u8]) -> usize
    ensures { result ≤ length buf.new }
{
    let mut done: usize = 0;
    for _ in 0..u64::MAX {
        if done == buf.len() {
            break;
        }
        match input.read(&mut buf[done..]) {
            Ok(0) => break,
            Ok(bytes) => done += bytes,
            Err(why) if why.kind() == ErrorKind::Interrupted => {}
            Err(_) => break,
        }
    }
    done
}
