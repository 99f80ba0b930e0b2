// The input, in whatever pieces it comes.
ghost use Rattle.std.specs.Prelude.{◌≡◌, ◌-◌, ◌≤◌, ◌<◌, length, take, IfOk};
ghost use Rattle.fillin_loop.specs.Input.{unread_in, InBuffer, ReadOn};

use std::io;
use std::io::{Error, ErrorKind, Read, Stdin, Stdout};

// The bytes that are read ahead at most: twice the longest record, so that one which is not all there has room behind
// it.
pub(crate) const ROOM: usize = 65_544;

// How often one read is tried at most, where signals interrupt it.
const MOST_TRIES: u64 = u64::MAX;

// Where records come from and where lines go, and how many bytes one read takes at most.
#[derive(Drop)]
pub struct Desk<R, W> {
    pub input: R,
    pub output: W,
    pub most: usize,
}

// Standard input and standard output, and reads as large as there is room for.
pub fn standard(rt: &HostRuntime) -> Desk<Stdin, Stdout>
    ensures { 0 < result.most }
{
    Desk {
        input: rt.stdin(),
        output: rt.stdout(),
        most: ROOM,
    }
}

// The bytes of a buffer that have come and are not answered yet, from a place to another, and whether nothing follows
// them.
#[derive(Clone, Copy)]
pub(crate) struct Unread {
    pub from: usize,
    pub to: usize,
    pub ended: bool,
}

// Before the first read.
pub(crate) fn nothing_read() -> Unread
    ensures { (result.from ≡ 0) × (result.to ≡ 0) }
{
    Unread {
        from: 0,
        to: 0,
        ended: false,
    }
}

// One read, again where a signal interrupts it. It is lent a place at least, so that no bytes do not mean that there was
// no room.
fn read_some<R: Read>(input: &mut R, buf: &mut [u8]) -> io::Result<usize>
    requires { 0 < length buf.old }
    ensures { IfOk result (λ n. n ≤ length buf.new) }
{
    for _ in 0..MOST_TRIES {
        match input.read(buf) {
            Err(why) if why.kind() == ErrorKind::Interrupted => {}
            came => return came,
        }
    }
    Err(Error::from(ErrorKind::Interrupted))
}

// Reads on: the bytes that are not answered yet are moved to the front, and one read puts more behind them, or nothing
// where the input has ended.
pub(crate) fn read_on<R: Read>(
    input: &mut R,
    most: usize,
    buf: &mut [u8],
    unread: Unread,
) -> io::Result<Unread>
    requires { InBuffer buf.old unread × (unread.to - unread.from < length buf.old) × (0 < most) }
    ensures read { IfOk result (λ more. ReadOn buf.old unread buf.new more) }
    ensures kept { take (unread.to - unread.from) buf.new ≡ unread_in buf.old unread }
{
    let from = unread.from;
    let to = unread.to;
    buf.copy_within(from..to, 0);
    let kept = to - from;
    let asked = most.min(buf.len() - kept);
    let end = kept + asked;
    let bytes = read_some(input, &mut buf[kept..end])?;
    Ok(Unread {
        from: 0,
        to: kept + bytes,
        ended: bytes == 0,
    })
}
