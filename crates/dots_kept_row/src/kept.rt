// A row's activation blocks, kept for every row of weights.
ghost use Rattle.std.specs.Prelude.{◌≡◌, ◌*◌, ◌/◌, ◌≤◌, length};
ghost use Rattle.refusals.specs.Sizes.{most_in};
ghost use Rattle.layouts.specs.Formats.{bytes_k};
ghost use Rattle.dots_kept_row.specs.Meets.{meets};
ghost use Rattle.dots_kept_row.specs.Inner.{kept_dot, KeptRow, Keeps};

use crate::meeting::{Meeting, meet};
use layouts::{Format, FormatK};

// What is kept of an activation block of 256 readings: its scale, its quants and its sums of 32, and not its count.
#[derive(Clone, Copy)]
pub struct KeptBlock {
    pub d: f32,
    pub qs: [i8; 256],
    pub bsums: [i32; 8],
}

// Quantises a row of readings, whole blocks.
pub fn keep_row(x: &[f32], kept: &mut [KeptBlock])
    requires { (length x.now ≤ most_in) × (length x.now / 256 ≤ length kept.old) }
    ensures { Keeps x.now (length x.now / 256) kept.new }
{
    let blocks = x.len() / 256;
    for t in 0..blocks {
        let from = 256 * t;
        let to = from + 256;
        let block = dots_activation::quantized_block(&x[from..to]);
        let d = block.d;
        let qs = block.qs;
        let bsums = block.bsums;
        kept[t] = KeptBlock { d, qs, bsums };
    }
}

// The dot of a row of packed weights and the row kept: a dot for each place of `dots`, which then meet there.
#[tactic(auto, using(crate::proofs::Blocks::lies))]
pub fn kept_row_dot(
    format: FormatK,
    meeting: Meeting,
    w: &[u8],
    kept: &[KeptBlock],
    dots: &mut [f32],
) -> f32
    requires { (length dots.old ≤ 512) × (length dots.old * bytes_k format ≤ length w.now)
        × KeptRow (length dots.old) kept.now }
    ensures { result ≡ meets meeting (kept_dot format w.now kept.now) (length dots.old) }
{
    let size = layouts::block_bytes(Format::OfK(format));
    for t in 0..dots.len() {
        let from = t * size;
        let to = from + size;
        dots[t] = dots_integer::block_dot(
            format,
            &w[from..to],
            kept[t].d,
            &kept[t].qs,
            &kept[t].bsums,
        );
    }
    meet(meeting, dots)
}
