// What the blocks' scales lost when they were stored.
ghost use Rattle.std.specs.Prelude.{◌≡◌, ◌+◌, ◌<◌, ◌^◌};
ghost use Rattle.quantizers.specs.Lost.{counted};

use halves::How;

// How many blocks' scales were flushed to zero, and how many were sent to infinity.
#[derive(Clone, Copy)]
pub struct Lost {
    pub flushed: usize,
    pub infinite: usize,
}

// What is lost once one more scale fared like this.
pub(crate) fn count(lost: Lost, how: How) -> Lost
    requires { (lost.flushed < 2 ^ 63) × (lost.infinite < 2 ^ 63) }
    ensures { result ≡ counted lost how }
{
    match how {
        How::Exact | How::Cut => lost,
        How::Flushed => Lost {
            flushed: lost.flushed + 1,
            infinite: lost.infinite,
        },
        How::SentToInfinity => Lost {
            flushed: lost.flushed,
            infinite: lost.infinite + 1,
        },
    }
}
