// The largest magnitude of readings, the scale that Q8 makes of it, and the first reading that has it.
ghost use Rattle.std.specs.Prelude.{◌≡◌, not, ◌&&◌, length};
ghost use Rattle.std.specs.Float.Ieee.{lt};
ghost use Rattle.numbers.specs.Steps.{nought, magnitude};
ghost use Rattle.readings.specs.Readings.{largest, largest_value, scale_q8};

use crate::ends::{ends_of, larger_of};
use numbers::magnitude_of;

// The largest magnitude of the readings: +0.0 where there is none, and a NaN is passed over. It is that of the end that
// is further from 0.
pub fn largest_magnitude(x: &[f32]) -> f32
    ensures { result ≡ largest x.now (length x.now) }
{
    let e = ends_of(x);
    larger_of(e.high, -e.low)
}

// The scale of readings that become Q8 quants: d.
pub fn scale_q8(x: &[f32]) -> f32
    ensures { result ≡ scale_q8 x.now }
{
    largest_magnitude(x) / 127.0
}

// Whether the magnitude of v is `most` or more, and above 0: so a NaN's is not.
fn reaches(v: f32, most: f32) -> bool
    ensures { result ≡ (lt nought (magnitude v) && not (lt (magnitude v) most)) }
{
    let m = magnitude_of(v);
    if 0.0 < m { !(m < most) } else { false }
}

// The first reading whose magnitude is `most`, the largest; +0.0 where that is 0.
fn first_of(x: &[f32], most: f32) -> f32
    requires { most ≡ largest x.now (length x.now) }
    ensures { result ≡ largest_value x.now (length x.now) }
{
    for &v in x {
        if reaches(v, most) {
            return v;
        }
    }
    0.0
}

// The first value of largest magnitude: +0.0 where every reading is a zero or a NaN. It is the end that is further from
// 0. Where both are as far, the readings tell which comes first.
pub fn largest_value(x: &[f32]) -> f32
    ensures { result ≡ largest_value x.now (length x.now) }
{
    let e = ends_of(x);
    let high = e.high;
    let low = e.low;
    if -high < low {
        return high;
    }
    if high < -low {
        return low;
    }
    if 0.0 < high {
        return first_of(x, high);
    }
    0.0
}
