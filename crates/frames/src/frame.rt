// A record: a u32 length of its kind and payload, a u16 kind, the payload.
ghost use Rattle.std.specs.Prelude.{◌≡◌, ◌≤◌};
ghost use Rattle.frames.specs.Frame.{most_record, good_length, size_of, is_whole, frame_of};
ghost use Rattle.frames.specs.Frame.{front_of, payload_of, rest_of};
ghost use Rattle.frames.specs.Pieces.{next_in};

use numbers::{u16_at, u32_at};

// What a length field says at most: a kind and its payload.
const MOST_LENGTH: usize = 32_768;

// A record's bytes at most, with its length field.
pub const MOST_RECORD: usize = 32_772;

// The bytes before a payload: the length and the kind.
const HEAD: usize = 6;

// Whether these bytes begin with a length field, from 2 to 32,768.
#[tactic(auto, unfolding(crate::specs::Frame::good_length))]
fn good_length(s: &[u8]) -> bool
    ensures { result ≡ good_length s.now }
{
    if s.len() < 4 {
        return false;
    }
    let n = u32_at(s, 0);
    if n < 2 {
        return false;
    }
    n <= MOST_LENGTH
}

// How many bytes the record has that begins with these: 4, its length field, where that is missing or bad.
#[tactic(auto, using(crate::proofs::Whole::good, crate::proofs::Whole::size_good, crate::proofs::Whole::size_bad))]
pub fn size_of(s: &[u8]) -> usize
    ensures { (result ≡ size_of s.now) × (result ≤ most_record) }
{
    if good_length(s) { 4 + u32_at(s, 0) } else { 4 }
}

// Whether these bytes begin with a good length and all the bytes that it counts.
#[tactic(auto, unfolding(crate::specs::Frame::is_whole))]
fn is_whole(s: &[u8]) -> bool
    ensures { result ≡ is_whole s.now }
{
    if !good_length(s) {
        return false;
    }
    size_of(s) <= s.len()
}

// What bytes begin with.
#[derive(Clone, Copy)]
pub enum Front {
    // Nothing is left.
    Ended,
    // A bad or cut length.
    Torn,
    // A whole record of this kind.
    Whole(usize),
}

// What these bytes begin with.
#[tactic(auto, unfolding(crate::specs::Frame::frame_of))]
pub fn frame_of(s: &[u8]) -> Front
    ensures { result ≡ front_of (frame_of s.now) }
{
    if s.len() == 0 {
        return Front::Ended;
    }
    if !is_whole(s) {
        return Front::Torn;
    }
    Front::Whole(u16_at(s, 4))
}

// The payload of the record that these bytes begin with, as a part of them; the empty part where no whole record
// stands there.
#[tactic(auto, using(crate::proofs::Whole::whole_size, crate::proofs::Whole::frame_whole, crate::proofs::Whole::frame_none))]
pub fn payload(s: &[u8]) -> &[u8]
    ensures { result.now ≡ payload_of (frame_of s.now) }
{
    if is_whole(s) {
        let to = size_of(s);
        &s[HEAD..to]
    } else {
        &s[..0]
    }
}

// What follows the record that these bytes begin with, as a part of them; the empty part where no whole record stands
// there.
#[tactic(auto, using(crate::proofs::Whole::whole_size))]
pub fn rest(s: &[u8]) -> &[u8]
    ensures { result.now ≡ rest_of (frame_of s.now) }
{
    if is_whole(s) {
        let from = size_of(s);
        &s[from..]
    } else {
        &s[..0]
    }
}

// How many bytes the next record has, at the front of what has come and is not answered yet; what is left of the input
// where that is less and nothing follows; and none where more has to come first.
#[tactic(auto, unfolding(crate::specs::Pieces::next_in))]
pub fn next_record(rest: &[u8], ended: bool) -> Option<usize>
    ensures { result ≡ next_in rest.now ended }
{
    let size = size_of(rest);
    if size <= rest.len() {
        return Some(size);
    }
    if ended {
        return Some(rest.len());
    }
    None
}
