// The pairwise tree in which sums meet: neighbours are added, an odd last one moves up, until one is left.
#![tactic(auto)]

mod tree;

pub use tree::{canonical_combine, tree8};
