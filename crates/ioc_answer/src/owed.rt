//! The text of a project with its least choice.
ghost use Rattle.std.specs.Prelude.{◌≡◌, ◌≢◌, ◌≤◌, ◌<◌, ◌^◌, ◌++◌, Some, length, codes, decimal, IfOk};
ghost use Rattle.res_base.specs.Lists.{Each};
ghost use Rattle.choice_rank.specs.Choices.{IsChoice};
ghost use Rattle.choice_rank.specs.Least.{IsAnswer, IsLeast};
ghost use Rattle.ioc_answer.specs.Owed.{OfIoc};
ghost use Rattle.problem.specs.Meets.{meets};
ghost use Rattle.problem.specs.Problem.{AreHomesDue, problem_of};
ghost use Rattle.problem.specs.declared.parts.Part.TheVariants as part;
ghost use Rattle.res_model.specs.Placed.{IsPlaced};
ghost use Rattle.solver.specs.Owed.{OfProblem};
ghost use Rattle.answers.specs.Said.{Says};
ghost use Rattle.answers.specs.declared.answer.Status.TheVariants as status;

use answers::{Answer, Status, counts, says};
use choice_rank::least_of;
use ioc_write::{BackFault, write_back};
use problem::{Part, Problem, build, wide_variable};
use refusal::Refusal;
use res_base::{Items, OutOfMemory};
use res_io::Gate;
use res_model::{Opts, Project, Tables};
use solver::too_wide;
use std::alloc::Global;
use std::sync::Wait;
use std::thread::Threads;
use wish_search::{Ranked, least_rank};

/// What is said of a line that would get too long.
fn too_long(alloc: Global, line: u32) -> Result<Answer, OutOfMemory>
    ensures { IfOk result (λ a. Says a status.WriteBackRefused (codes "ioc: line " ++ decimal line)) }
{
    counts(
        alloc,
        Status::WriteBackRefused,
        "ioc: line ",
        u64::from(line),
    )
}

/// What is due for the least choice: the text with it, or why it can't be written.
fn written(alloc: Global, text: &[u8], p: &Problem, at: &[u16]) -> Result<Answer, OutOfMemory>
    requires few { length text.now < 2 ^ 32 }
    requires whole { p.now.first ≢ 0 }
    requires choice { IsChoice p.now.shape at.now }
    requires least { IsLeast p.now.shape (meets p.now) at.now }
    ensures { IfOk result (λ a. OfIoc text.now p.now a) }
{
    match write_back(alloc, text, p, at) {
        Ok(out) => Ok(Answer {
            status: Status::Done,
            text: Items::of(out),
        }),
        Err(Refusal::Fault(BackFault::NoNumber)) => says(
            alloc,
            Status::WriteBackRefused,
            "ioc: number",
        ),
        Err(Refusal::Fault(BackFault::LongLine { line })) => too_long(alloc, line),
        Err(Refusal::OutOfMemory) => Err(OutOfMemory),
    }
}

/// What is due where a rank is the least.
fn found(alloc: Global, text: &[u8], p: &Problem, rank: u64) -> Result<Answer, OutOfMemory>
    requires few { length text.now < 2 ^ 32 }
    requires whole { p.now.first ≢ 0 }
    requires answer { IsAnswer p.now.shape (meets p.now) (Some rank) }
    ensures { IfOk result (λ a. OfIoc text.now p.now a) }
{
    let at = least_of(alloc, &p.parts().shape, rank)?;
    written(alloc, text, p, at.as_slice())
}

/// What is due for the rank of the least choice, or for none.
fn told(alloc: Global, text: &[u8], p: &Problem, best: Option<u64>) -> Result<Answer, OutOfMemory>
    requires few { length text.now < 2 ^ 32 }
    requires whole { p.now.first ≢ 0 }
    requires answer { IsAnswer p.now.shape (meets p.now) best }
    ensures { IfOk result (λ a. OfIoc text.now p.now a) }
{
    match best {
        Some(rank) => found(alloc, text, p, rank),
        None => says(alloc, Status::NoChoice, "no choice"),
    }
}

fn searched<R: Threads + Wait + Sync, G: Gate + Sync>(
    rt: &R,
    alloc: Global,
    text: &[u8],
    p: Problem,
    workers: u32,
    gate: &G,
) -> Result<Answer, OutOfMemory>
    requires few { length text.now < 2 ^ 32 }
    requires whole { p.first ≢ 0 }
    requires workers { (1 ≤ workers) × (workers ≤ 16) }
    ensures { IfOk result (λ a. OfIoc text.now p a) }
{
    let Ranked { problem, best } = least_rank(rt, alloc, p, workers, gate)?;
    told(alloc, text, &problem, best)
}

/// The text of a project with the least choice of pins and clocks as its homes, found by 1 to 16 workers; or why it
/// can't be written, or that no choice meets every limit. `text` is the project's, and `p` what was read of it.
pub fn write_least<R: Threads + Wait + Sync, G: Gate + Sync>(
    rt: &R,
    alloc: Global,
    text: &[u8],
    t: Tables,
    p: Project,
    opts: &Opts,
    workers: u32,
    gate: &G,
) -> Result<Answer, OutOfMemory>
    requires bytes { length text.now < 2 ^ 32 }
    requires few { length p.signals ≤ 160 }
    requires placed { Each (IsPlaced t) p.signals }
    requires hertz { p.hse_hz < 2 ^ 32 }
    requires homes { AreHomesDue t p opts.now part.Whole }
    requires workers { (1 ≤ workers) × (workers ≤ 16) }
    ensures { IfOk result (λ a. OfProblem (problem_of t p opts.now part.Whole) (OfIoc text.now (problem_of t p opts.now part.Whole)) a) }
{
    match build(alloc, t, p, opts, Part::Whole) {
        Ok(problem) => searched(rt, alloc, text, problem, workers, gate),
        Err(Refusal::Fault(fault)) => too_wide(alloc, wide_variable(fault)),
        Err(Refusal::OutOfMemory) => Err(OutOfMemory),
    }
}
