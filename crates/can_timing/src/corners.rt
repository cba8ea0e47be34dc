//! The least and the greatest timing of a box.
ghost use Rattle.std.specs.Prelude.{◌≡◌, take};
ghost use Rattle.box_split.specs.Boxes.{IsBox, lows, highs};
ghost use Rattle.box_split.specs.BoxIn.{box_in};
ghost use Rattle.can_timing.specs.Timings.{can_shape, timing_of};

use crate::timing::{Timing, timing_of};
use box_split::BoxBuf;

/// The ends of the runs of the four variables.
fn first_four(ends: &[u16; 170]) -> &[u16]
    ensures { result.now ≡ take 4 ends.now }
{
    &ends[..4]
}

/// The timing at the lowest positions.
pub(crate) fn least_in(b: &BoxBuf) -> Timing
    requires { IsBox can_shape (box_in can_shape b.now) }
    ensures { result ≡ timing_of (lows (box_in can_shape b.now)) }
{
    timing_of(first_four(&b.lo))
}

/// The timing at the highest positions.
pub(crate) fn greatest_in(b: &BoxBuf) -> Timing
    requires { IsBox can_shape (box_in can_shape b.now) }
    ensures { result ≡ timing_of (highs (box_in can_shape b.now)) }
{
    timing_of(first_four(&b.hi))
}
