//! The least placement of the signals.
ghost use Rattle.std.specs.Prelude.{◌≡◌, ◌≤◌, ◌<◌, ◌^◌, Some, length, IfOk};
ghost use Rattle.res_base.specs.Lists.{Each};
ghost use Rattle.choice_rank.specs.Least.{IsAnswer};
ghost use Rattle.problem.specs.Meets.{meets};
ghost use Rattle.problem.specs.Problem.{problem_of};
ghost use Rattle.problem.specs.declared.parts.Part.TheVariants as part;
ghost use Rattle.res_model.specs.Placed.{IsPlaced};
ghost use Rattle.solver.specs.Owed.{OfPins, OfProblem};

use crate::wide::too_wide;
use answers::{Answer, Status, says};
use box_judge::PinJudge;
use choice_rank::least_of;
use problem::{Part, Problem, build, wide_variable};
use refusal::Refusal;
use report::placement_text;
use res_base::{Items, OutOfMemory};
use res_model::{Opts, Project, Tables};
use serial_search::search;
use std::alloc::Global;

/// What is due where a rank is the least: its placement.
fn found(alloc: Global, p: &Problem, rank: u64) -> Result<Answer, OutOfMemory>
    requires { IsAnswer p.now.shape (meets p.now) (Some rank) }
    ensures { IfOk result (λ a. OfPins p.now a) }
{
    let at = least_of(alloc, &p.parts().shape, rank)?;
    let text = placement_text(alloc, p, at.as_slice())?;
    Ok(Answer {
        status: Status::Done,
        text: Items::of(text),
    })
}

/// What is due for the rank of the least placement, or for none.
fn told(alloc: Global, p: &Problem, best: Option<u64>) -> Result<Answer, OutOfMemory>
    requires { IsAnswer p.now.shape (meets p.now) best }
    ensures { IfOk result (λ a. OfPins p.now a) }
{
    match best {
        Some(rank) => found(alloc, p, rank),
        None => says(alloc, Status::NoChoice, "no choice"),
    }
}

/// What is due where the search has accounted for each choice.
fn searched(alloc: Global, p: Problem) -> Result<Answer, OutOfMemory>
    requires { p.first ≡ 0 }
    ensures { IfOk result (λ a. OfPins p a) }
{
    let judge = PinJudge::new(alloc, p)?;
    let outcome = search(alloc, &judge)?;
    told(alloc, judge.problem(), outcome.best)
}

/// The least placement of a project's signals, or why there is none.
pub fn place(alloc: Global, t: Tables, p: Project, opts: &Opts) -> Result<Answer, OutOfMemory>
    requires few { length p.signals ≤ 160 }
    requires placed { Each (IsPlaced t) p.signals }
    requires hertz { p.hse_hz < 2 ^ 32 }
    ensures { IfOk result (λ a. OfProblem (problem_of t p opts.now part.PinsOnly) (OfPins (problem_of t p opts.now part.PinsOnly)) a) }
{
    match build(alloc, t, p, opts, Part::PinsOnly) {
        Ok(problem) => searched(alloc, problem),
        Err(Refusal::Fault(fault)) => too_wide(alloc, wide_variable(fault)),
        Err(Refusal::OutOfMemory) => Err(OutOfMemory),
    }
}
