// The answer to one file: it is stored, and the program's loop reads it back.
ghost use Rattle.std.specs.Prelude.{◌<◌};

use fillin_loop::Desk;
use std::fs::{File, OpenOptions};
use std::io;
use std::io::{IsTerminal, Read, Write};

// Where a file is stored while it is answered.
const PLACE: &str = "case.records";
// Reads that take as much as the loop has room for.
pub(crate) const LARGE: usize = 65_536;

// Answers what a desk reads: a line with the number before it, and one with the status behind it. The number of the
// next answer.
fn answer<R: Read + Drop, W: Write + IsTerminal + Drop>(
    rt: &HostRuntime,
    number: u64,
    desk: Desk<R, W>,
) -> io::Result<u64>
    requires { 0 < desk.most }
{
    println!(rt; "file {number}")?;
    let ending = fillin_loop::fill_in(desk, rt.stderr());
    println!(rt; "status {}", ending.status())?;
    Ok(number.wrapping_add(1))
}

// Stores a file so many times, one behind the other.
fn store(rt: &HostRuntime, file: &[u8], times: usize) -> io::Result<()> {
    let mut place = File::create(rt, PLACE)?;
    for _ in 0..times {
        place.write_all(file)?;
    }
    Ok(())
}

// Answers what is stored, with at most so many bytes to a read. The number of the next answer.
fn answer_stored(rt: &HostRuntime, number: u64, most: usize) -> io::Result<u64>
    requires { 0 < most }
{
    let input = File::open(rt, PLACE)?;
    let output = rt.stdout();
    answer(
        rt,
        number,
        Desk {
            input,
            output,
            most,
        },
    )
}

// Answers a file that stands so many times, one behind the other, with at most so many bytes to a read. The number of
// the next answer.
pub(crate) fn answer_file(
    rt: &HostRuntime,
    number: u64,
    file: &[u8],
    times: usize,
    most: usize,
) -> io::Result<u64>
    requires { 0 < most }
{
    store(rt, file, times)?;
    answer_stored(rt, number, most)
}

// Answers a file whose lines are put behind it, where they are read on as what they are not, a record: so lines are
// written before more is read. The number of the next answer.
pub(crate) fn answer_behind_itself(rt: &HostRuntime, number: u64, file: &[u8]) -> io::Result<u64> {
    store(rt, file, 1)?;
    let input = File::open(rt, PLACE)?;
    let output = OpenOptions::new().append(true).open(rt, PLACE)?;
    answer(
        rt,
        number,
        Desk {
            input,
            output,
            most: LARGE,
        },
    )
}

// Answers an input that cannot be read, as it is open for writing alone, and then what is stored to an output that
// cannot be written, as it is open for reading alone.
pub(crate) fn answer_neither(rt: &HostRuntime, number: u64) -> io::Result<()> {
    let unreadable = Desk {
        input: OpenOptions::new().write(true).create(true).open(rt, PLACE)?,
        output: rt.stdout(),
        most: LARGE,
    };
    let next = answer(rt, number, unreadable)?;
    let unwritable = Desk {
        input: File::open(rt, PLACE)?,
        output: File::open(rt, PLACE)?,
        most: LARGE,
    };
    answer(rt, next, unwritable)?;
    Ok(())
}
