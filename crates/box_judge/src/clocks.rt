//! The judge of pins and clocks.
ghost use Rattle.std.specs.Prelude.{◌≡◌, ◌≢◌, IsOkAnd, take};
ghost use Rattle.search_api.proofs.ShapeLemmas.{shape_prop};
ghost use Rattle.clock_limits.specs.Ranges.{refuting_limit};
ghost use Rattle.box_rules.specs.Judged.{IsWhole, clock_box, whole_meaning, whole_verdict};
ghost use Rattle.box_split.specs.Boxes.{IsBox};
ghost use Rattle.box_split.specs.BoxIn.{box_in};
ghost use Rattle.box_judge.specs.Kept.{FitsWhole};
ghost use Rattle.box_judge.specs.Ready.{whole_prop, whole_lawful};

use crate::kept::{PinClockRoom, hall_kept, whole_room};
use box_split::{BoxBuf, is_single};
use choice_rank::Shape;
use clock_limits::{ClockBox, range_broken};
use problem::Problem;
use res_base::OutOfMemory;
use search_api::{Judge, Reason, Verdict};
use std::alloc::Global;

/// Judges the boxes of a problem of clocks and pins.
#[derive(Drop)]
pub struct PinClockJudge {
    problem: Problem,
    ghost whole: { IsWhole problem } by { whole_prop problem },
}

impl PinClockJudge {
    /// The judge of a problem that has the clock variables too.
    pub fn new(_alloc: Global, p: Problem) -> Result<PinClockJudge, OutOfMemory>
        requires { p.first ≢ 0 }
        ensures { IsOkAnd result (λ j. j.problem ≡ p) }
    {
        is_whole(&p);
        Ok(PinClockJudge { problem: p })
    }

    pub fn problem(&self) -> &Problem
        ensures { result.now ≡ self.now.problem }
    {
        &self.problem
    }

    /// The problem, when no box of it is to be judged any more.
    pub fn into_problem(self) -> Problem
        ensures { result ≡ self.problem }
    {
        self.problem
    }
}

/// That a problem with clock variables has what a judge keeps of it.
fn is_whole(p: &Problem)
    requires { p.now.first ≢ 0 }
    ensures { IsWhole p.now }
{
    p.parts_agree();
    p.parts().tables.keeps_rules();
}

impl Judge for PinClockJudge {
    type Scratch = PinClockRoom;

    ghost meaning = { λ j. whole_meaning j.problem };

    ghost fits = { λ j s. FitsWhole j.problem s };

    fn shape(&self) -> &Shape {
        &self.problem.parts().shape
    }

    fn scratch(&self, alloc: Global) -> Result<PinClockRoom, OutOfMemory> {
        whole_room(alloc, &self.problem)
    }

    fn judge(&self, scratch: &mut PinClockRoom, b: &BoxBuf) -> Verdict {
        judge_whole(&self.problem, scratch, b)
    }

    ghost lawful = { λ j. whole_lawful j.problem j.whole };
}

/// The positions of the clock variables, which stand before those of the signals.
fn first_ten(positions: &[u16; 170]) -> [u16; 10]
    ensures { result ≡ take 10 positions.now }
{
    [
        positions[0],
        positions[1],
        positions[2],
        positions[3],
        positions[4],
        positions[5],
        positions[6],
        positions[7],
        positions[8],
        positions[9],
    ]
}

/// The least limit that the clock values of a box leave no room for.
fn refuting_limit(p: &Problem, b: &BoxBuf) -> Option<u8>
    requires whole { IsWhole p.now }
    requires is_box { IsBox p.now.shape (box_in p.now.shape b.now) }
    ensures { result ≡ refuting_limit p.now.tables p.now.facts p.now.clock (clock_box (box_in p.now.shape b.now)) }
{
    let parts = p.parts();
    let clocks = ClockBox {
        lo: first_ten(&b.lo),
        hi: first_ten(&b.hi),
    };
    range_broken(&parts.tables, &parts.facts, parts.clock.as_slice(), &clocks)
}

/// The verdict of the judge of clocks and pins.
fn judge_whole(p: &Problem, room: &mut PinClockRoom, b: &BoxBuf) -> Verdict
    requires whole { IsWhole p.now }
    requires fits { FitsWhole p.now room.old }
    requires is_box { IsBox p.now.shape (box_in p.now.shape b.now) }
    ensures verdict { result ≡ whole_verdict p.now (box_in p.now.shape b.now) }
    ensures fits { FitsWhole p.now room.new }
{
    if let Some(reason) = hall_kept(p, room, b) {
        return Verdict::Bad(reason);
    }
    if let Some(limit) = refuting_limit(p, b) {
        return Verdict::Bad(Reason::Limit(limit));
    }
    if is_single(&p.parts().shape, b) {
        Verdict::Legal
    } else {
        Verdict::Open
    }
}
