// The two ends of readings: the largest above 0 and the least below it. They are the same in any order of the readings.
ghost use Rattle.std.specs.Prelude.{◌≡◌, true, false, cond, length};
ghost use Rattle.std.specs.Float.Ieee.{lt};
ghost use Rattle.readings.specs.Inner.{further, furthest, end_of, furthest_of_8};

// The larger of the two; a where b is a NaN.
pub(crate) fn larger_of(a: f32, b: f32) -> f32
    ensures { result ≡ cond (lt a b) b a }
{
    if a < b { b } else { a }
}

// The smaller of the two; a where b is a NaN.
pub(crate) fn smaller_of(a: f32, b: f32) -> f32
    ensures { result ≡ cond (lt b a) b a }
{
    if b < a { b } else { a }
}

// Of the two the one that is further, up or DOWN; a where b is a NaN.
fn further<const DOWN: bool>(a: f32, b: f32) -> f32
    ensures { result ≡ further DOWN a b }
{
    if DOWN {
        smaller_of(a, b)
    } else {
        larger_of(a, b)
    }
}

// The largest reading above 0 and the least below it, each +0.0 where there is none. A NaN is neither.
#[derive(Clone, Copy)]
pub(crate) struct Ends {
    pub(crate) high: f32,
    pub(crate) low: f32,
}

// The furthest of eight lanes, up or DOWN. They meet in a tree, where few comparisons wait for another.
fn furthest_of_8<const DOWN: bool>(h: &[f32; 8]) -> f32
    ensures { result ≡ furthest_of_8 DOWN h.now }
{
    further::<DOWN>(
        further::<DOWN>(further::<DOWN>(h[0], h[4]), further::<DOWN>(h[2], h[6])),
        further::<DOWN>(further::<DOWN>(h[1], h[5]), further::<DOWN>(h[3], h[7])),
    )
}

// The ends of `e` and the readings, one after the other.
fn ends_with(e: Ends, x: &[f32]) -> Ends
    ensures { (result.high ≡ furthest false e.high x.now (length x.now))
        × (result.low ≡ furthest true e.low x.now (length x.now)) }
{
    let mut high = e.high;
    let mut low = e.low;
    for &v in x {
        high = larger_of(high, v);
        low = smaller_of(low, v);
    }
    Ends { high, low }
}

// The ends of the readings. Eight lanes take every eighth reading each, as long as there are eight more.
pub(crate) fn ends_of(x: &[f32]) -> Ends
    ensures { (result.high ≡ end_of false x.now) × (result.low ≡ end_of true x.now) }
{
    let turns = x.len() / 8;
    let mut high = [0.0f32; 8];
    let mut low = [0.0f32; 8];
    for t in 0..turns {
        for j in 0..8usize {
            let v = x[8 * t + j];
            high[j] = larger_of(high[j], v);
            low[j] = smaller_of(low[j], v);
        }
    }
    let e = Ends {
        high: furthest_of_8::<false>(&high),
        low: furthest_of_8::<true>(&low),
    };
    ends_with(e, &x[8 * turns..])
}
