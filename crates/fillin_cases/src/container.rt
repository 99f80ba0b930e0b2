// The files of a container, one after the other.
use crate::answers::{LARGE, answer_behind_itself, answer_file};
use numbers::u32_at;
use std::io;

// How a file is answered, by the byte in front of it: at each of its cuts, from no bytes to all of them ..
const AT_EACH_CUT: u8 = 1;
// .. with at most 1 byte to a read, then 2, and so on ..
const IN_PIECES: u8 = 2;
// .. a thousand times, one behind the other ..
const A_THOUSAND: u8 = 3;
// .. with its lines put behind it; and at any other byte as it is.
const BEHIND_ITSELF: u8 = 4;

// The bytes of a piece at most: one more than the length and the kind have.
const MOST_PIECE: usize = 7;

// Answers a file at each of its cuts. The number of the next answer.
fn answer_cuts(rt: &HostRuntime, number: u64, file: &[u8]) -> io::Result<u64> {
    let mut next = number;
    for cut in 0..=file.len() {
        next = answer_file(rt, next, &file[..cut], 1, LARGE)?;
    }
    Ok(next)
}

// Answers a file in pieces. The number of the next answer.
fn answer_pieces(rt: &HostRuntime, number: u64, file: &[u8]) -> io::Result<u64> {
    let mut next = number;
    for most in 1..=MOST_PIECE {
        next = answer_file(rt, next, file, 1, most)?;
    }
    Ok(next)
}

// Answers a file as it is to be. The number of the next answer.
fn answer_so(rt: &HostRuntime, way: u8, number: u64, file: &[u8]) -> io::Result<u64> {
    match way {
        AT_EACH_CUT => answer_cuts(rt, number, file),
        IN_PIECES => answer_pieces(rt, number, file),
        A_THOUSAND => answer_file(rt, number, file, 1_000, LARGE),
        BEHIND_ITSELF => answer_behind_itself(rt, number, file),
        _ => answer_file(rt, number, file, 1, LARGE),
    }
}

// Answers the files up to the end, or to one that is cut. The number of the next answer.
pub(crate) fn answer_container(rt: &HostRuntime, s: &[u8]) -> io::Result<u64> {
    let mut number: u64 = 1;
    let mut at: usize = 0;
    while s.len() - at >= 5 {
        let way = s[at];
        let size = u32_at(s, at + 1);
        let from = at + 5;
        if size > s.len() - from {
            break;
        }
        let to = from + size;
        number = answer_so(rt, way, number, &s[from..to])?;
        at = to;
    }
    Ok(number)
}
