// What stands at the front of a record file.
ghost use Rattle.std.specs.Prelude.{◌≡◌};
ghost use Rattle.frames.specs.Frame.{frame_of};
ghost use Rattle.records.specs.Kinds.{kind_found, found};

use crate::layers::layer_item;
use crate::windows::window_item;
use frames::Front;
use refusals::Refusal;

// What the reader finds.
#[derive(Clone, Copy)]
pub enum Item {
    // Nothing is left.
    End,
    // A layer.
    Layer {
        format: u8,
        in_feat: usize,
        out_feat: usize,
    },
    // A window for the latest layer.
    Window,
    // A window that still has warm-up readings: 13.
    WarmUp,
}

// The record of this kind with payload p, where the latest layer takes `latest` readings, or 0 where there is none
// yet.
#[tactic(auto, unfolding(crate::specs::Kinds::kind_found, refusals::specs::Refusals::given))]
fn kind_item(kind: usize, p: &[u8], latest: usize) -> Result<Item, Refusal>
    ensures { result ≡ kind_found kind p.now latest }
{
    match kind {
        1 => layer_item(p),
        2 => window_item(p, latest),
        _ => Err(Refusal::Unknown),
    }
}

// What stands at the front of these bytes, where the latest layer takes `latest` readings, or 0 where there is none
// yet. Refuses 11, 12, 11, 12, 6, 2, 11 and 13, in document 01's order.
pub fn read(s: &[u8], latest: usize) -> Result<Item, Refusal>
    ensures { result ≡ found (frame_of s.now) latest }
{
    match frames::frame_of(s) {
        Front::Ended => Ok(Item::End),
        Front::Torn => Err(Refusal::Malformed),
        Front::Whole(kind) => kind_item(kind, frames::payload(s), latest),
    }
}
