//! What the least choice costs.
ghost use Rattle.std.specs.Prelude.{◌≡◌, ◌≢◌, ◌<◌, ◌^◌, None, Some, true, IfOk};
ghost use Rattle.choice_rank.specs.Choices.{IsChoice, cost_of};
ghost use Rattle.choice_rank.specs.Least.{IsAnswer};
ghost use Rattle.ioc_project.specs.Read.{IsRead};
ghost use Rattle.problem.specs.Meets.{meets};
ghost use Rattle.problem.specs.Problem.{problem_of};
ghost use Rattle.problem.specs.declared.parts.Part.TheVariants as part;
ghost use Rattle.explain.specs.Left.{ComesTo, HasCost, IsLeastCost, lines_left, opts_left};

use crate::kinds::Thing;
use crate::left::{line_of, opts_left};
use choice_rank::least_of;
use ioc_project::read_project;
use ioc_text::Ioc;
use problem::{Part, Problem, build, wide_variable};
use refusal::Refusal;
use res_base::OutOfMemory;
use res_model::{Opts, Project, Tables};
use std::alloc::Global;
use wish_search::{Ranked, rank_alone};

/// What a choice costs.
fn cost_of(p: &Problem, at: &[u16]) -> u32
    requires { IsChoice p.now.shape at.now }
    ensures { result ≡ cost_of p.now.shape at.now }
{
    p.parts().shape.cost(at)
}

/// What the choice whose rank is the least costs.
fn cost_at(alloc: Global, p: &Problem, rank: u64) -> Result<Option<u32>, OutOfMemory>
    requires { IsAnswer p.now.shape (meets p.now) (Some rank) }
    ensures { IfOk result (IsLeastCost p.now) }
{
    let at = least_of(alloc, &p.parts().shape, rank)?;
    Ok(Some(cost_of(p, at.as_slice())))
}

/// The cost of the least choice of a whole problem that meets the limits; none where no choice does.
pub fn least_cost(alloc: Global, p: Problem) -> Result<Option<u32>, OutOfMemory>
    requires { p.first ≢ 0 }
    ensures { IfOk result (IsLeastCost p) }
{
    let Ranked { problem, best } = rank_alone(alloc, p)?;
    match best {
        Some(rank) => cost_at(alloc, &problem, rank),
        None => Ok(None),
    }
}

/// That the HSE's frequency is a u32.
fn hertz_fit(t: &Tables)
    ensures { t.now.hse_hz < 2 ^ 32 }
{
    t.keeps_rules();
}

/// That a problem whose ranks would not fit from this variable on has no cost.
fn wide_cost(_variable: u16) -> Result<Option<u32>, OutOfMemory>
    ensures { IfOk result (λ cost. cost ≡ None) }
{
    Ok(None)
}

/// The cost of the least choice of a project, unless its ranks would not fit.
fn project_cost(
    alloc: Global,
    t: Tables,
    p: Project,
    opts: &Opts,
) -> Result<Option<u32>, OutOfMemory>
    requires { IsRead t opts.now true p }
    ensures { IfOk result (HasCost (problem_of t p opts.now part.Whole)) }
{
    hertz_fit(&t);
    match build(alloc, t, p, opts, Part::Whole) {
        Ok(problem) => least_cost(alloc, problem),
        Err(Refusal::Fault(fault)) => wide_cost(wide_variable(fault)),
        Err(Refusal::OutOfMemory) => Err(OutOfMemory),
    }
}

/// What lines and options come to under a table.
fn cost_left(alloc: Global, t: &Tables, ioc: &Ioc, opts: &Opts) -> Result<Option<u32>, OutOfMemory>
    ensures { IfOk result (ComesTo t.now ioc.now opts.now) }
{
    match read_project(alloc, t, ioc, opts, true) {
        Ok(project) => {
            let tables = t.copy(alloc)?;
            project_cost(alloc, tables, project, opts)
        }
        Err(Refusal::Fault(_)) => Ok(None),
        Err(Refusal::OutOfMemory) => Err(OutOfMemory),
    }
}

/// What is left without a thing comes to. The lines that are left share what was read.
pub(crate) fn cost_without(
    alloc: Global,
    t: &Tables,
    ioc: &Ioc,
    opts: &Opts,
    thing: Thing,
) -> Result<Option<u32>, OutOfMemory>
    ensures { IfOk result (ComesTo t.now (lines_left ioc.now thing) (opts_left opts.now thing)) }
{
    let opts = opts_left(alloc, opts, thing)?;
    match line_of(thing) {
        None => cost_left(alloc, t, ioc, &opts),
        Some(line) => {
            let left = ioc.without(alloc, line)?;
            cost_left(alloc, t, &left, &opts)
        }
    }
}
