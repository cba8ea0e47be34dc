//! The judge of boxes of bit timings, and the checker of proofs about them.
ghost use Rattle.std.specs.Prelude.{◌≡◌, ◌<◌, ◌^◌, length, IfOk, IfErr, OnOk};
ghost use Rattle.refusal.specs.Refusals.{IfFault};
ghost use Rattle.choice_rank.specs.Least.{IsAnswer};
ghost use Rattle.box_split.specs.Boxes.{IsBox, is_single};
ghost use Rattle.box_split.specs.BoxIn.{box_in};
ghost use Rattle.refutation.specs.Trees.{IsAccepted};
ghost use Rattle.tree_check.specs.Faults.{IsRejected};
ghost use Rattle.tree_check.specs.Sound.{of_judge};
ghost use Rattle.can_timing.specs.Timings.{can_shape, variable};
ghost use Rattle.can_timing.specs.Judged.{can_meaning, can_verdict, legal, refutes, verdict_from};
ghost use Rattle.can_timing.specs.Lawful.{can_lawful};

use crate::corners::{greatest_in, least_in};
use crate::request::Request;
use crate::rules::{is_outside, misses_point, serves};
use crate::timing::timing_of;
use box_split::{BoxBuf, is_single};
use choice_rank::{Costs, Shape, VarShape};
use refusal::Refusal;
use refutation::{CheckFault, Proof};
use res_base::{OutOfMemory, Ratio};
use search_api::{Judge, Reason, Verdict};
use std::alloc::Global;
use tree_check::Refuter;

/// Judges boxes of bit timings for a request, and checks what refutes them.
#[derive(Drop)]
pub struct CanJudge {
    pub request: Request,
    shape: Shape,
    ghost own: { shape ≡ can_shape },
}

/// A judge of bit timings needs no room to work in.
#[derive(Drop)]
pub struct NoRoom;

fn variable(size: u16) -> VarShape
    ensures { result ≡ variable size }
{
    VarShape {
        size,
        costs: Costs::AllZero,
    }
}

/// The shape of a bit timing.
fn can_shape(alloc: Global) -> Result<Shape, OutOfMemory>
    ensures { IfOk result (λ s. s ≡ can_shape) }
{
    let mut vars = Vec::with_capacity(alloc, 4)?;
    vars.push(variable(2))?;
    vars.push(variable(512))?;
    vars.push(variable(16))?;
    vars.push(variable(8))?;
    match Shape::new(alloc, vars) {
        Ok(shape) => Ok(shape),
        // The shape is narrow, so that memory alone is a fault here.
        Err(_) => Err(OutOfMemory),
    }
}

impl CanJudge {
    /// The judge of a clock in hertz, a rate in bits per second, and a sample point with its
    /// tolerance to either side, both in per mille of a bit.
    pub fn new(
        alloc: Global,
        pclk: Ratio,
        rate: u32,
        point: u32,
        tolerance: u32,
    ) -> Result<CanJudge, OutOfMemory>
        ensures { IfOk result (λ j. j.request ≡ record { pclk = pclk; rate = rate; point = point; tolerance = tolerance }) }
    {
        let shape = can_shape(alloc)?;
        let request = Request {
            pclk,
            rate,
            point,
            tolerance,
        };
        Ok(CanJudge { request, shape })
    }
}

impl Judge for CanJudge {
    type Scratch = NoRoom;

    ghost meaning = { λ j. can_meaning j.request };

    ghost fits = { λ j s. Unit {0} };

    fn shape(&self) -> &Shape {
        &self.shape
    }

    fn scratch(&self, _alloc: Global) -> Result<NoRoom, OutOfMemory> {
        Ok(NoRoom)
    }

    fn judge(&self, _scratch: &mut NoRoom, b: &BoxBuf) -> Verdict {
        verdict_on(&self.request, &self.shape, b)
    }

    ghost lawful = { λ j. can_lawful j.request };
}

impl Refuter for CanJudge {
    ghost meaning = { λ j. can_meaning j.request };

    ghost serves = { λ j. Unit {0} };

    fn shape(&self) -> &Shape {
        &self.shape
    }

    fn refutes(&self, reason: Reason, b: &BoxBuf) -> bool {
        refutes(&self.request, reason, b)
    }

    fn meets(&self, at: &[u16]) -> bool {
        serves(&self.request, timing_of(at))
    }

    ghost sound = { λ j _. of_judge (can_meaning j.request) (can_lawful j.request) };
}

/// The verdict on a box: the rate is asked first, and then the sample point.
fn verdict_on(q: &Request, s: &Shape, b: &BoxBuf) -> Verdict
    requires shape { s.now ≡ can_shape }
    requires is_box { IsBox can_shape (box_in can_shape b.now) }
    ensures { result ≡ can_verdict q.now (box_in can_shape b.now) }
{
    let least = least_in(b);
    let greatest = greatest_in(b);
    let rate = is_outside(q, least, greatest);
    let point = misses_point(q, least, greatest);
    verdict_from(rate, point, is_single(s, b))
}

fn verdict_from(rate: bool, point: bool, single: bool) -> Verdict
    ensures { result ≡ verdict_from rate point single }
{
    if rate {
        return Verdict::Bad(Reason::Limit(3));
    }
    if point {
        return Verdict::Bad(Reason::Limit(4));
    }
    if single {
        Verdict::Legal
    } else {
        Verdict::Open
    }
}

/// Whether a reason refutes a box: limit 3 is the rate and limit 4 the sample point, and there is no other.
fn refutes(q: &Request, reason: Reason, b: &BoxBuf) -> bool
    requires { IsBox can_shape (box_in can_shape b.now) }
    ensures { result ≡ refutes q.now reason (box_in can_shape b.now) }
{
    match reason {
        Reason::Hall { .. } => false,
        Reason::Limit(3) => is_outside(q, least_in(b), greatest_in(b)),
        Reason::Limit(4) => misses_point(q, least_in(b), greatest_in(b)),
        Reason::Limit(_) => false,
    }
}

/// The bound of a proof that is accepted for a request: the rank of the least timing that serves,
/// or none where no timing serves.
///
/// A proof is refused exactly where it is not accepted, with the first node at fault, as
/// `tree_check` names it.
pub fn check_can(
    alloc: Global,
    j: &CanJudge,
    proof: &Proof,
) -> Result<Option<u64>, Refusal<CheckFault>>
    requires { length proof.now.nodes < 2 ^ 32 }
    ensures bound { IfOk result (λ bound. bound ≡ proof.now.bound) }
    ensures accepted { OnOk result (IsAccepted (can_meaning j.now.request) proof.now.bound proof.now.nodes) }
    ensures answer { OnOk result (IsAnswer can_shape (legal j.now.request) proof.now.bound) }
    ensures rejected { IfErr result (λ e. IfFault e (IsRejected (can_meaning j.now.request) proof.now.bound proof.now.nodes)) }
{
    tree_check::check(alloc, j, proof)
}
