// What comes of a record of the sample.
ghost use Rattle.std.specs.Prelude.{◌≡◌};
ghost use Rattle.replay_answers.specs.Same.{same_bits, says_number, same_answer, finding_of};

use refusals::Refusal;

#[derive(Clone, Copy)]
pub enum Finding {
    // Our answer is the Rust's.
    Same,
    // It is not.
    Differs,
    // It is no answer, but the name of the call whose records end with it.
    Name,
    // No call has the tag.
    Unknown,
    // The payload is longer than the buffer, or is not of its call's form.
    Malformed,
    // The input ends inside the record.
    Cut,
    // The input ended before it.
    End,
}

impl Finding {
    // Whether ours is theirs, as a finding.
    pub fn of_same(same: bool) -> Self
        ensures { result ≡ finding_of same }
    {
        if same {
            Finding::Same
        } else {
            Finding::Differs
        }
    }

    // Of two floats: the same bits, or both NaN.
    pub fn of_floats(ours: f32, theirs: f32) -> Self
        ensures { result ≡ finding_of (same_bits ours theirs) }
    {
        Finding::of_same(same_bits(ours, theirs))
    }

    // Of a dot or a sum.
    pub fn of_answer(ours: Result<f32, Refusal>, number: u32, value: f32) -> Self
        ensures { result ≡ finding_of (same_answer ours number value) }
    {
        Finding::of_same(same_answer(ours, number, value))
    }
}

// Whether two floats are the same bits, or both NaN.
pub fn same_bits(a: f32, b: f32) -> bool
    ensures { result ≡ same_bits a b }
{
    halves::bits_of(a) == halves::bits_of(b)
}

// Whether a call that fills lent memory, or a check, says this number: that it is done is 0.
pub fn says(ours: Result<(), Refusal>, number: u32) -> bool
    ensures { result ≡ says_number ours number }
{
    match ours {
        Ok(()) => number == 0,
        Err(refusal) => refusal.number() == number,
    }
}

// Whether a dot or a sum says this number, or, where the number is 0, this value.
pub fn same_answer(ours: Result<f32, Refusal>, number: u32, value: f32) -> bool
    ensures { result ≡ same_answer ours number value }
{
    match ours {
        Ok(v) => number == 0 && same_bits(v, value),
        Err(refusal) => refusal.number() == number,
    }
}
