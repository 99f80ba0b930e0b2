// How the dots of a row's blocks meet.
ghost use Rattle.std.specs.Prelude.{◌≡◌, length};
ghost use Rattle.sums_lanes.specs.Lanes.{values};
ghost use Rattle.dots_kept_row.specs.Meets.{running, meets};

// In the tree, or, in the `_rs` layers, in a running sum from +0.0.
#[derive(Clone, Copy)]
pub enum Meeting {
    Tree,
    Running,
}

// The running sum of all of x.
fn running_sum(x: &[f32]) -> f32
    ensures { result ≡ running (values x.now) (length x.now) }
{
    let mut sum: f32 = 0.0;
    for &v in x {
        sum = sum + v;
    }
    sum
}

// The dots of a row's blocks, met. The tree is worked in their slice.
pub(crate) fn meet(meeting: Meeting, dots: &mut [f32]) -> f32
    ensures { result ≡ meets meeting (values dots.old) (length dots.old) }
{
    match meeting {
        Meeting::Tree => sums_tree::canonical_combine(dots),
        Meeting::Running => running_sum(dots),
    }
}
