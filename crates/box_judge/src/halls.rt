//! Which signals of a box are more than what they compete for.
ghost use Rattle.std.specs.Prelude.{◌≡◌, ◌≤◌, ◌-◌, IfOk, drop, length};
ghost use Rattle.box_split.specs.Boxes.{IsBox};
ghost use Rattle.box_split.specs.BoxIn.{box_in};
ghost use Rattle.box_rules.specs.Contest.{hall_in};
ghost use Rattle.box_rules.specs.Judged.{IsReady, contest};
ghost use Rattle.box_judge.specs.Fits.{FitsPins, hall_reason};
ghost use Rattle.box_judge.specs.Room.{IsContest};

use crate::contest::Contest;
use box_split::BoxBuf;
use problem::Problem;
use res_base::{OutOfMemory, VarSet};
use search_api::{Class, Reason};
use std::alloc::Global;

/// Room for what competes in a box.
#[derive(Drop)]
pub struct PinRoom {
    pub(crate) pins: Contest,
    pub(crate) lines: Contest,
}

/// That a problem has few signals.
fn few_uses(p: &Problem)
    ensures { length p.now.uses ≤ 160 }
{
    p.parts_agree();
}

/// Room for the signals of a problem.
pub(crate) fn pin_room(alloc: Global, p: &Problem) -> Result<PinRoom, OutOfMemory>
    ensures { IfOk result (FitsPins p.now) }
{
    let uses = p.parts().uses.as_slice();
    few_uses(p);
    Ok(PinRoom {
        pins: Contest::new(alloc, Class::Pins, uses)?,
        lines: Contest::new(alloc, Class::Exti, uses)?,
    })
}

/// The positions of the signals, the first of which is the variable of this number.
fn signals(positions: &[u16; 170], first: u16) -> &[u16]
    requires { first ≤ 10 }
    ensures rest { result.now ≡ drop first positions.now }
    ensures long { length result.now ≡ 170 - first }
{
    &positions[first as usize..]
}

/// The signals of a class that are too many in a box.
fn hall(p: &Problem, class: Class, room: &mut Contest, b: &BoxBuf) -> Option<VarSet>
    requires ready { IsReady p.now }
    requires fits { IsContest class p.now.uses room.old }
    requires is_box { IsBox p.now.shape (box_in p.now.shape b.now) }
    ensures hall { result ≡ hall_in p.now.tables class (contest p.now class (box_in p.now.shape b.now)) }
    ensures fits { IsContest class p.now.uses room.new }
{
    let parts = p.parts();
    let t = parts.tables.parts();
    let uses = parts.uses.as_slice();
    let first = parts.first;
    let lo = signals(&b.lo, first);
    let hi = signals(&b.hi, first);
    room.hall(t, class, uses, first, lo, hi)
}

/// The signals that are too many in a box: pins are asked first, and then the lines of interrupts.
pub(crate) fn refuting_hall(p: &Problem, room: &mut PinRoom, b: &BoxBuf) -> Option<Reason>
    requires ready { IsReady p.now }
    requires fits { FitsPins p.now room.old }
    requires is_box { IsBox p.now.shape (box_in p.now.shape b.now) }
    ensures refuting { result ≡ hall_reason p.now (box_in p.now.shape b.now) }
    ensures fits { FitsPins p.now room.new }
{
    if let Some(vars) = hall(p, Class::Pins, &mut room.pins, b) {
        let class = Class::Pins;
        return Some(Reason::Hall { class, vars });
    }
    if let Some(vars) = hall(p, Class::Exti, &mut room.lines, b) {
        let class = Class::Exti;
        return Some(Reason::Hall { class, vars });
    }
    None
}
