//! What the signals of the last box showed, for the boxes after it that differ in their clock values alone.
ghost use Rattle.std.specs.Prelude.{◌≡◌, ◌≤◌, drop, length, slice_range, IfOk, IfSome, IsTrue};
ghost use Rattle.box_split.specs.Boxes.{IsBox};
ghost use Rattle.box_split.specs.BoxIn.{box_in};
ghost use Rattle.box_rules.specs.Judged.{IsWhole};
ghost use Rattle.box_judge.specs.Fits.{hall_reason};
ghost use Rattle.box_judge.specs.Kept.{FitsWhole, IsKept};

use crate::halls::{PinRoom, pin_room, refuting_hall};
use box_split::BoxBuf;
use problem::Problem;
use res_base::OutOfMemory;
use search_api::Reason;
use std::alloc::Global;

/// A box, and what its signals show.
#[derive(Clone, Copy)]
pub(crate) struct Kept {
    pub(crate) b: BoxBuf,
    pub(crate) refuting: Option<Reason>,
}

/// Room for what competes in a box, with what the signals of the last box showed.
#[derive(Drop)]
pub struct PinClockRoom {
    pub(crate) signals: PinRoom,
    pub(crate) kept: Option<Kept>,
}

/// Room for the signals of a problem, with nothing kept.
pub(crate) fn whole_room(alloc: Global, p: &Problem) -> Result<PinClockRoom, OutOfMemory>
    ensures { IfOk result (FitsWhole p.now) }
{
    let signals = pin_room(alloc, p)?;
    Ok(PinClockRoom {
        signals,
        kept: None,
    })
}

/// Whether the variables from a first one on have the same positions.
fn are_same(xs: &[u16; 170], ys: &[u16; 170], first: usize, end: usize) -> bool
    requires ordered { first ≤ end }
    requires within { end ≤ 170 }
    ensures same { IsTrue result → slice_range xs.now first end ≡ slice_range ys.now first end }
    ensures long { length xs.now ≡ 170 }
    ensures as_long { length ys.now ≡ 170 }
{
    &xs[first..end] == &ys[first..end]
}

/// Whether the signals have the same positions in two boxes.
fn have_same_signals(p: &Problem, a: &BoxBuf, b: &BoxBuf) -> bool
    requires { IsWhole p.now }
    ensures { IsTrue result → drop p.now.first (box_in p.now.shape a.now) ≡ drop p.now.first (box_in p.now.shape b.now) }
{
    let end = p.parts().shape.vars().len();
    are_same(&a.lo, &b.lo, 10, end) && are_same(&a.hi, &b.hi, 10, end)
}

/// What was kept, where it is of a box with the same signals.
fn kept_for(p: &Problem, kept: &Option<Kept>, b: &BoxBuf) -> Option<Option<Reason>>
    requires whole { IsWhole p.now }
    requires kept { IfSome kept.now (IsKept p.now) }
    ensures { IfSome result (λ refuting. refuting ≡ hall_reason p.now (box_in p.now.shape b.now)) }
{
    match kept {
        Some(kept) if have_same_signals(p, &kept.b, b) => Some(kept.refuting),
        _ => None,
    }
}

/// What the signals of a box show. They are asked anew only where they differ from those of the last box.
pub(crate) fn hall_kept(p: &Problem, room: &mut PinClockRoom, b: &BoxBuf) -> Option<Reason>
    requires whole { IsWhole p.now }
    requires fits { FitsWhole p.now room.old }
    requires is_box { IsBox p.now.shape (box_in p.now.shape b.now) }
    ensures refuting { result ≡ hall_reason p.now (box_in p.now.shape b.now) }
    ensures fits { FitsWhole p.now room.new }
{
    if let Some(refuting) = kept_for(p, &room.kept, b) {
        return refuting;
    }
    let refuting = refuting_hall(p, &mut room.signals, b);
    room.kept = Some(Kept { b: *b, refuting });
    refuting
}
