// The pairwise tree: neighbours are added, an odd last one moves up, until one is left.
ghost use Rattle.std.specs.Prelude.{◌≡◌, ◌++◌, ◌+◌, ◌/◌, ◌≤◌, length, take, drop};
ghost use Rattle.sums_tree.specs.Tree.{pair_up, tree, combined};

// One round over the first `len` places, whose sums fill the front half. Returns how many there are.
fn round(part: &mut [f32], len: usize) -> usize
    requires { len ≤ length part.old }
    ensures value { result ≡ (len + 1) / 2 }
    ensures part_after { part.new
        ≡ pair_up (take len part.old) ++ drop ((len + 1) / 2) part.old }
{
    let pairs = len / 2;
    for t in 0..pairs {
        part[t] = part[2 * t] + part[2 * t + 1];
    }
    if 2 * pairs < len {
        part[pairs] = part[2 * pairs];
        return pairs + 1;
    }
    pairs
}

// The tree over a slice of any length, worked in the slice: each round fills the front half and leaves the places
// behind. An empty tree is +0.0.
pub fn canonical_combine(part: &mut [f32]) -> f32
    ensures { (result, part.new) ≡ combined part.old }
{
    let mut len = part.len();
    if len == 0 {
        return 0.0;
    }
    while len > 1 {
        len = round(part, len);
    }
    part[0]
}

// The tree over eight lanes, written out: no loop stands between a chunk's lanes and its sum.
#[tactic(auto, using(crate::proofs::TreeLaws::tree_eight))]
pub fn tree8(l: [f32; 8]) -> f32
    ensures { result ≡ tree l }
{
    ((l[0] + l[1]) + (l[2] + l[3])) + ((l[4] + l[5]) + (l[6] + l[7]))
}
