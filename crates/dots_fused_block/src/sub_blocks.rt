// A block with minimums: eight sub-blocks of 32, each with a scale and a minimum of its own. Every loop counts to a
// length that it is handed, and so is short where it is compiled by itself: the compiler puts it into each format's
// branch, and there, where the lengths are known, writes its turns out, each step on vectors.
ghost use Rattle.std.specs.Prelude.{◌≡◌, ◌≤◌, pos, length, get_or};
ghost use Rattle.sums_lanes.specs.Lanes.{lanes_from};
ghost use Rattle.dots_fused_block.specs.Inner.{block_terms, sub_block_terms};

use layouts::FormatK;

// Eight terms, one for each lane.
fn eight_terms(l: &mut [f32], x: &[f32], q: &[u8], d: f32, m: f32)
    requires { (length l.old ≡ 8) × (length x.now ≡ 8) × (length q.now ≡ 8) }
    ensures { l.new
        ≡ lanes_from l.old (sub_block_terms x.now q.now d m) 8 }
{
    for i in 0..l.len() {
        l[i] = l[i] + x[i] * (d * q[i] as f32 - m);
    }
}

// The lanes `l` after the 32 terms of a sub-block, eight a turn.
fn add_sub_block(l: &mut [f32], x: &[f32], q: &[u8], d: f32, m: f32)
    requires { (length l.old ≡ 8) × (length x.now ≡ 32) × (length q.now ≡ 32) }
    ensures { l.new
        ≡ lanes_from l.old (sub_block_terms x.now q.now d m) 32 }
{
    for e in 0..q.len() / 8 {
        let at = 8 * e;
        let end = at + 8;
        eight_terms(l, &x[at..end], &q[at..end], d, m);
    }
}

// The lanes `l` after the 256 terms of a block whose whole numbers are q, a sub-block a turn.
pub(crate) fn add_sub_blocks(l: &mut [f32], x: &[f32], block: &[u8], q: &[u8])
    requires { (length l.old ≡ 8) × (length x.now ≡ 256) × (16 ≤ length block.now) × (length q.now ≡ 256) }
    ensures { l.new ≡ lanes_from l.old
        (block_terms FormatK.Q4K x.now block.now (λ i. pos (get_or q.now i 0))) 256 }
{
    let both = k_scales::scales_and_minimums(block);
    let size = q.len() / 8;
    let mut at: usize = 0;
    for j in 0..q.len() / 32 {
        let end = at + size;
        add_sub_block(l, &x[at..end], &q[at..end], both[j], both[j + 8]);
        at = end;
    }
}
