// The stepped layer: a layer worked one piece of one row at a time. A piece is one chunk of one row; its sum waits in a
// slot, its mark says that it is done, and a row is closed by meeting its slots in the tree.
#![tactic(auto)]

mod closing;
mod opening;
mod running;

pub use closing::close;
pub use opening::open;
pub use running::run;
