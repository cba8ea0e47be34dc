//! The box in a worker's hand.
ghost use Rattle.std.specs.Prelude.{MatchOption};
ghost use Rattle.search_core.specs.Ends.{HoldsNone, IsHeld};
ghost use Rattle.search_core.specs.Fits.{Fits};

use crate::hands::hand_at;
use crate::state::{Core, Hand};
use box_split::{BoxBuf, low, of_path};
use search_api::Judge;

/// A worker's hand with its path, the box of that and its low.
#[derive(Clone, Copy)]
pub(crate) struct Held {
    pub(crate) hand: Hand,
    pub(crate) path: u128,
    pub(crate) b: BoxBuf,
    pub(crate) low: u64,
}

/// What a worker has in hand. None where there is no such worker, or it has no path.
pub(crate) fn in_hand<J: Judge>(core: &Core, j: &J, w: u32) -> Option<Held>
    requires { Fits (J.meaning j.now) core.now }
    ensures { MatchOption result (HoldsNone (J.meaning j.now) core.now w) (IsHeld (J.meaning j.now) core.now w) }
{
    let hand = hand_at(&core.hands, w)?;
    let path = hand.path?;
    let shape = j.shape();
    let mut b = BoxBuf::new();
    of_path(shape, path, &mut b);
    let low = low(shape, &b);
    Some(Held { hand, path, b, low })
}
