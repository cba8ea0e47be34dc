//! The halves of a box, and the lowest choice in it.
ghost use Rattle.std.specs.Prelude.{◌≡◌, Some, is_none};
ghost use Rattle.choice_rank.specs.Choices.{IsChoice};
ghost use Rattle.box_split.specs.Boxes.{IsBox, is_single, lows, low_of};
ghost use Rattle.box_split.specs.Paths.{lower, upper, split_from};
ghost use Rattle.box_split.specs.BoxIn.{box_in};

use crate::buffer::BoxBuf;
use crate::parts::split_in;
use choice_rank::Shape;

/// Where a box is split: the first variable with two positions, and the last position of its lower half.
///
/// The answer is `None` where the box has one choice.
pub fn split_at(s: &Shape, b: &BoxBuf) -> Option<(u16, u16)>
    ensures split { result ≡ split_from 0 (box_in s.now b.now) }
    ensures single { is_none result ≡ is_single (box_in s.now b.now) }
{
    match split_in(s.vars().len(), 0, &b.lo, &b.hi) {
        Some((variable, after)) => Some((variable as u16, after)),
        None => None,
    }
}

/// Whether a box has one choice.
pub fn is_single(s: &Shape, b: &BoxBuf) -> bool
    ensures { result ≡ is_single (box_in s.now b.now) }
{
    split_at(s, b).is_none()
}

/// Makes a box its lower half, which ends at a position of the variable that is split.
pub fn keep_lower(s: &Shape, b: &mut BoxBuf, variable: u16, after: u16)
    requires is_box { IsBox s.now (box_in s.now b.old) }
    requires split { split_from 0 (box_in s.now b.old) ≡ Some (variable, after) }
    ensures half { box_in s.now b.new ≡ lower (box_in s.now b.old) }
    ensures is_box { IsBox s.now (box_in s.now b.new) }
{
    // The shape is read for its bounds alone: its sizes are at most 512.
    let _vars = s.vars();
    b.hi[variable as usize] = after;
}

/// Makes a box its upper half, which begins after a position of the variable that is split.
pub fn keep_upper(s: &Shape, b: &mut BoxBuf, variable: u16, after: u16)
    requires is_box { IsBox s.now (box_in s.now b.old) }
    requires split { split_from 0 (box_in s.now b.old) ≡ Some (variable, after) }
    ensures half { box_in s.now b.new ≡ upper (box_in s.now b.old) }
    ensures is_box { IsBox s.now (box_in s.now b.new) }
{
    // The shape is read for its bounds alone: its sizes are at most 512.
    let _vars = s.vars();
    b.lo[variable as usize] = after + 1;
}

/// The choice of a box's lowest positions.
pub fn lows<'a>(s: &Shape, b: &'a BoxBuf) -> &'a [u16]
    requires { IsBox s.now (box_in s.now b.now) }
    ensures lows { result.now ≡ lows (box_in s.now b.now) }
    ensures choice { IsChoice s.now result.now }
{
    &b.lo[..s.vars().len()]
}

/// The rank of the choice of a box's lowest positions, which is the least in the box.
pub fn low(s: &Shape, b: &BoxBuf) -> u64
    requires { IsBox s.now (box_in s.now b.now) }
    ensures { result ≡ low_of s.now (box_in s.now b.now) }
{
    s.rank(lows(s, b))
}
