//! The judge of pins alone.
ghost use Rattle.std.specs.Prelude.{◌≡◌, IsOkAnd};
ghost use Rattle.search_api.proofs.ShapeLemmas.{shape_prop};
ghost use Rattle.box_rules.specs.Judged.{IsReady, pin_meaning, pin_verdict};
ghost use Rattle.box_split.specs.Boxes.{IsBox};
ghost use Rattle.box_split.specs.BoxIn.{box_in};
ghost use Rattle.box_judge.specs.Fits.{FitsPins};
ghost use Rattle.box_judge.specs.Ready.{ready_prop, pin_lawful};

use crate::halls::{PinRoom, pin_room, refuting_hall};
use box_split::{BoxBuf, is_single};
use choice_rank::Shape;
use problem::Problem;
use res_base::OutOfMemory;
use search_api::{Judge, Verdict};
use std::alloc::Global;

/// Judges the boxes of a problem of pins alone.
#[derive(Drop)]
pub struct PinJudge {
    problem: Problem,
    ghost ready: { IsReady problem } by { ready_prop problem },
    ghost pins_only: { problem.first ≡ 0 },
}

impl PinJudge {
    /// The judge of a problem that has signals alone.
    pub fn new(_alloc: Global, p: Problem) -> Result<PinJudge, OutOfMemory>
        requires { p.first ≡ 0 }
        ensures { IsOkAnd result (λ j. j.problem ≡ p) }
    {
        is_ready(&p);
        Ok(PinJudge { problem: p })
    }

    pub fn problem(&self) -> &Problem
        ensures { result.now ≡ self.now.problem }
    {
        &self.problem
    }
}

/// That a problem has what a judge keeps of it.
fn is_ready(p: &Problem)
    ensures { IsReady p.now }
{
    p.parts_agree();
    p.parts().tables.keeps_rules();
}

impl Judge for PinJudge {
    type Scratch = PinRoom;

    ghost meaning = { λ j. pin_meaning j.problem };

    ghost fits = { λ j s. FitsPins j.problem s };

    fn shape(&self) -> &Shape {
        &self.problem.parts().shape
    }

    fn scratch(&self, alloc: Global) -> Result<PinRoom, OutOfMemory> {
        pin_room(alloc, &self.problem)
    }

    fn judge(&self, scratch: &mut PinRoom, b: &BoxBuf) -> Verdict {
        judge_pins(&self.problem, scratch, b)
    }

    ghost lawful = { λ j. pin_lawful j.problem j.ready j.pins_only };
}

/// The verdict of the judge of pins.
fn judge_pins(p: &Problem, room: &mut PinRoom, b: &BoxBuf) -> Verdict
    requires ready { IsReady p.now }
    requires fits { FitsPins p.now room.old }
    requires is_box { IsBox p.now.shape (box_in p.now.shape b.now) }
    ensures verdict { result ≡ pin_verdict p.now (box_in p.now.shape b.now) }
    ensures fits { FitsPins p.now room.new }
{
    match refuting_hall(p, room, b) {
        Some(reason) => Verdict::Bad(reason),
        None if is_single(&p.parts().shape, b) => Verdict::Legal,
        None => Verdict::Open,
    }
}
