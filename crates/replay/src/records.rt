// The sample's records, read one after the other and judged.
use crate::calls::judge;
use input_bytes::read_full;
use replay_answers::Finding;

// A record's head, and what comes of it.
#[derive(Clone, Copy)]
pub struct Record {
    pub tag: u8,
    // The payload's bytes.
    pub len: usize,
    pub finding: Finding,
}

// The input's next record. `buf` is room for its payload.
pub fn next(rt: &HostRuntime, buf: &mut [u8]) -> Record {
    let mut head = [0u8; 5];
    let got = read_full(&mut rt.stdin(), &mut head);
    let tag = head[0];
    let len = numbers::le_u32(head[1], head[2], head[3], head[4]) as usize;
    let finding = if got == 0 {
        Finding::End
    } else if got < 5 {
        Finding::Cut
    } else {
        judge_payload(rt, buf, tag, len)
    };
    Record { tag, len, finding }
}

// What comes of a payload of `len` bytes, which the input has next.
fn judge_payload(rt: &HostRuntime, buf: &mut [u8], tag: u8, len: usize) -> Finding {
    if len > buf.len() {
        return Finding::Malformed;
    }
    let got = read_full(&mut rt.stdin(), &mut buf[..len]);
    if got < len {
        return Finding::Cut;
    }
    judge(rt, tag, &buf[..len])
}
