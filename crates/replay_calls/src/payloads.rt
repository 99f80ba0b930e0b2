// What the payloads of several calls have in common: the rows of a dot or a sum, and what stands in an output.
ghost use Rattle.std.specs.Prelude.{◌≤◌};

use refusals::Refusal;
use replay_answers::{Finding, read_floats, says, u32_at};

// A row of readings and one of weights, as they stand in a payload, behind n, and the answer behind them: the number
// that says no, 0 where there is none, and the value.
#[derive(Clone, Copy)]
pub(crate) struct Rows<'a> {
    pub n: usize,
    pub x: &'a [u8],
    pub w: &'a [u8],
    pub number: u32,
    pub value: f32,
}

// The rows of a payload that is n, how many readings and weights there are, these, 4 bytes to a reading and `weight` to
// a weight, and the answer.
pub(crate) fn read_rows(payload: &[u8], weight: usize) -> Option<Rows>
    requires { weight ≤ 4 }
{
    let n = u32_at(payload, 0) as usize;
    let w_at = 12 + 4 * u32_at(payload, 4) as usize;
    let end = w_at + weight * u32_at(payload, 8) as usize;
    if payload.len() != end + 8 {
        return None;
    }
    Some(Rows {
        n,
        x: &payload[12..w_at],
        w: &payload[w_at..end],
        number: u32_at(payload, end),
        value: halves::of_bits(u32_at(payload, end + 4)),
    })
}

// The floats whose bits stand in these bytes, read into lent memory; none where it is too short for them.
pub(crate) fn floats_in<'a>(bytes: &[u8], memory: &'a mut [f32]) -> Option<&'a mut [f32]> {
    let len = bytes.len() / 4;
    if len > memory.len() {
        return None;
    }
    let floats = &mut memory[..len];
    read_floats(bytes, floats);
    Some(floats)
}

// What a call says and leaves in its output, beside what is stored, as `same` compares it. A payload is how many places
// the output has and how many bytes the call is given, these, the number that says no, 0 where there is none, and what
// then stands in the output, so many bytes to a place. The output is the first places of `out`.
pub(crate) fn judge_output<
    T,
    F: Fn(&[u8], &mut [T]) -> Result<(), Refusal>,
    S: Fn(&[u8], &[T]) -> bool,
>(call: F, same: S, place: usize, out: &mut [T], payload: &[u8]) -> Finding
    requires first { F.IsAlwaysCallable call }
    requires second { S.IsAlwaysCallable same }
    requires third { place ≤ 4 }
{
    let room = u32_at(payload, 0) as usize;
    if room > out.len() {
        return Finding::Malformed;
    }
    let end = 8 + u32_at(payload, 4) as usize;
    let left = end + 4;
    if payload.len() != left + place * room {
        return Finding::Malformed;
    }
    let out = &mut out[..room];
    if !says(call(&payload[8..end], out), u32_at(payload, end)) {
        return Finding::Differs;
    }
    Finding::of_same(same(&payload[left..], out))
}
