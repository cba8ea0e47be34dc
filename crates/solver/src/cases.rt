//! The least choice of a made case.
ghost use Rattle.std.specs.Prelude.{◌≡◌, ◌≢◌, ◌≤◌, ◌<◌, ◌^◌, Some, length, IfOk};
ghost use Rattle.res_base.specs.Lists.{Each};
ghost use Rattle.choice_rank.specs.Least.{IsAnswer};
ghost use Rattle.problem.specs.Meets.{meets};
ghost use Rattle.problem.specs.Problem.{AreHomesDue, problem_of};
ghost use Rattle.problem.specs.declared.parts.Part.TheVariants as part;
ghost use Rattle.res_model.specs.Placed.{IsPlaced};
ghost use Rattle.solver.specs.Owed.{OfCase, OfProblem};

use crate::wide::too_wide;
use answers::{Answer, Status, says};
use box_judge::PinClockJudge;
use choice_rank::least_of;
use problem::{Part, Problem, build, wide_variable};
use refusal::Refusal;
use report::case_text;
use res_base::{Items, OutOfMemory};
use res_io::Gate;
use res_model::{Opts, Project, Tables};
use std::alloc::Global;
use std::sync::Wait;
use std::thread::Threads;
use steal_pool::search_by;

/// What is due where a rank is the least: the lines of the case.
fn found(alloc: Global, number: u64, p: &Problem, rank: u64) -> Result<Answer, OutOfMemory>
    requires whole { p.now.first ≢ 0 }
    requires answer { IsAnswer p.now.shape (meets p.now) (Some rank) }
    ensures { IfOk result (λ a. OfCase number p.now a) }
{
    let at = least_of(alloc, &p.parts().shape, rank)?;
    let text = case_text(alloc, number, p, at.as_slice())?;
    Ok(Answer {
        status: Status::Done,
        text: Items::of(text),
    })
}

/// What is due for the rank of the least choice, or for none.
fn told(alloc: Global, number: u64, p: &Problem, best: Option<u64>) -> Result<Answer, OutOfMemory>
    requires whole { p.now.first ≢ 0 }
    requires answer { IsAnswer p.now.shape (meets p.now) best }
    ensures { IfOk result (λ a. OfCase number p.now a) }
{
    match best {
        Some(rank) => found(alloc, number, p, rank),
        None => says(alloc, Status::NoChoice, "no choice"),
    }
}

/// What is due where so many workers have accounted for each choice.
fn searched<R: Threads + Wait + Sync, G: Gate + Sync>(
    rt: &R,
    alloc: Global,
    number: u64,
    p: Problem,
    workers: u32,
    gate: &G,
) -> Result<Answer, OutOfMemory>
    requires whole { p.first ≢ 0 }
    requires workers { (1 ≤ workers) × (workers ≤ 16) }
    ensures { IfOk result (λ a. OfCase number p a) }
{
    let judge = PinClockJudge::new(alloc, p)?;
    let outcome = search_by(rt, alloc, &judge, workers, gate)?;
    told(alloc, number, judge.problem(), outcome.best)
}

/// The lines of the least choice of a made case, or that there is none. It is searched by 1 to 16 workers at a time.
pub fn resolve_case<R: Threads + Wait + Sync, G: Gate + Sync>(
    rt: &R,
    alloc: Global,
    number: u64,
    t: Tables,
    p: Project,
    opts: &Opts,
    workers: u32,
    gate: &G,
) -> Result<Answer, OutOfMemory>
    requires few { length p.signals ≤ 160 }
    requires placed { Each (IsPlaced t) p.signals }
    requires hertz { p.hse_hz < 2 ^ 32 }
    requires homes { AreHomesDue t p opts.now part.Whole }
    requires workers { (1 ≤ workers) × (workers ≤ 16) }
    ensures { IfOk result (λ a. OfProblem (problem_of t p opts.now part.Whole) (OfCase number (problem_of t p opts.now part.Whole)) a) }
{
    match build(alloc, t, p, opts, Part::Whole) {
        Ok(problem) => searched(rt, alloc, number, problem, workers, gate),
        Err(Refusal::Fault(fault)) => too_wide(alloc, wide_variable(fault)),
        Err(Refusal::OutOfMemory) => Err(OutOfMemory),
    }
}
