//! A problem, from a table, a project and options.
ghost use Rattle.std.specs.Prelude.{◌≡◌, ◌≤◌, ◌<◌, ◌^◌, true, Ok, length, IfOk, IfErr, OnOk};
ghost use Rattle.res_base.specs.Lists.{Each};
ghost use Rattle.refusal.specs.Refusals.{IfFault};
ghost use Rattle.choice_rank.specs.Choices.{IsNarrow, HasPositions, HasSmallSizes};
ghost use Rattle.pin_rules.specs.Sizes.{IsSized};
ghost use Rattle.res_model.specs.Placed.{IsPlaced};
ghost use Rattle.ioc_project.specs.Project.{all_within, domain_tests, fixes_clock};
ghost use Rattle.res_model.specs.Values.{pin_values};
ghost use Rattle.problem.specs.ClockValues.{clock_domains, clock_values, clock_variables};
ghost use Rattle.problem.specs.Problem.{IsRefused, IsProblem, AreHomesDue, clock_of, clock_shape, first_of, problem_of, shape_of};

use crate::clocks::{Clocks, clock_domains, clocks_of};
use crate::parts::{Part, Problem, ProblemParts};
use crate::pins::{pin_values, push_pin_variables};
use choice_rank::{Shape, ShapeFault, VarShape};
use ioc_project::facts;
use refusal::Refusal;
use res_base::{Items, OutOfMemory};
use res_model::{Free, Home, Opts, PinUse, Project, Tables};
use std::alloc::Global;

fn fixes_clock(free: Free) -> bool
    ensures { result ≡ fixes_clock free }
{
    match free {
        Free::Pins | Free::Nothing => true,
        Free::Clock | Free::All => false,
    }
}

fn homes_of(p: &Project) -> &[Home]
    ensures homes { result.now ≡ p.now.clock }
    ensures ten { length p.now.clock ≡ 10 }
{
    &p.clock
}

/// The clock variables of a part, with their values.
fn clocks(
    alloc: Global,
    t: &Tables,
    p: &Project,
    opts: &Opts,
    part: Part,
) -> Result<Clocks, OutOfMemory>
    requires { AreHomesDue t.now p.now opts.now part }
    ensures vars { IfOk result (λ c. c.vars.items ≡ clock_shape t.now p.now opts.now part) }
    ensures values { IfOk result (λ c. c.values.items ≡ clock_of t.now p.now opts.now part) }
{
    match part {
        Part::PinsOnly => Ok(Clocks {
            vars: Vec::new(alloc),
            values: Vec::new(alloc),
        }),
        Part::Whole => whole_clocks(alloc, t, p, opts),
    }
}

fn whole_clocks(alloc: Global, t: &Tables, p: &Project, opts: &Opts) -> Result<Clocks, OutOfMemory>
    requires { AreHomesDue t.now p.now opts.now Part.Whole }
    ensures vars { IfOk result (λ c. c.vars.items ≡ clock_variables (fixes_clock opts.now.free) (clock_domains t.now) p.now.clock) }
    ensures values { IfOk result (λ c. c.values.items ≡ clock_values (fixes_clock opts.now.free) (clock_domains t.now) p.now.clock) }
{
    t.keeps_rules();
    let domains = clock_domains(alloc, t)?;
    clocks_of(
        alloc,
        domains.as_slice(),
        homes_of(p),
        fixes_clock(opts.free),
    )
}

/// The variables of a problem, with their values.
#[derive(Drop)]
struct Made {
    shape: Vec<VarShape>,
    clock: Vec<Items<u16>>,
    uses: Vec<Items<PinUse>>,
}

fn variables(
    alloc: Global,
    t: &Tables,
    p: &Project,
    opts: &Opts,
    part: Part,
) -> Result<Made, OutOfMemory>
    requires sized { Each (IsSized t.now) p.now.signals }
    requires homes { AreHomesDue t.now p.now opts.now part }
    ensures shape { IfOk result (λ v. v.shape.items ≡ shape_of t.now p.now opts.now part) }
    ensures clock { IfOk result (λ v. v.clock.items ≡ clock_of t.now p.now opts.now part) }
    ensures uses { IfOk result (λ v. v.uses.items ≡ pin_values t.now p.now.signals) }
{
    let Clocks { vars, values } = clocks(alloc, t, p, opts, part)?;
    let mut shape = vars;
    let signals = p.signals.as_slice();
    let uses = pin_values(alloc, t, signals)?;
    push_pin_variables(&mut shape, t, signals, uses.as_slice())?;
    Ok(Made {
        shape,
        clock: values,
        uses,
    })
}

/// That the variables of a problem have positions, and not too many.
fn are_sized(t: &Tables, p: &Project, opts: &Opts, part: Part)
    requires few { length p.now.signals ≤ 160 }
    requires placed { Each (IsPlaced t.now) p.now.signals }
    requires homes { AreHomesDue t.now p.now opts.now part }
    ensures sized { Each (IsSized t.now) p.now.signals }
    ensures few { length (shape_of t.now p.now opts.now part) ≤ 170 }
    ensures positions { HasPositions (shape_of t.now p.now opts.now part) }
    ensures small { HasSmallSizes (shape_of t.now p.now opts.now part) }
    ensures agree { IsNarrow (shape_of t.now p.now opts.now part) → p.now.hse_hz < 2 ^ 32 → IsProblem (problem_of t.now p.now opts.now part) }
{
    t.keeps_rules();
    let _ = homes_of(p);
}

fn first_of(part: Part) -> u16
    ensures { result ≡ first_of part }
{
    match part {
        Part::PinsOnly => 0,
        Part::Whole => 10,
    }
}

/// The problem that a table, a project and options make: of the signals alone, or of the clocks too.
///
/// A project that was read under the same options, for a whole problem with its clocks in play, meets the conditions.
/// `TooWide` names the first variable with which ranks would not fit.
pub fn build(
    alloc: Global,
    t: Tables,
    p: Project,
    opts: &Opts,
    part: Part,
) -> Result<Problem, Refusal<ShapeFault>>
    requires few { length p.signals ≤ 160 }
    requires placed { Each (IsPlaced t) p.signals }
    requires hertz { p.hse_hz < 2 ^ 32 }
    requires homes { AreHomesDue t p opts.now part }
    ensures problem { IfOk result (λ q. q ≡ problem_of t p opts.now part) }
    ensures narrow { OnOk result (IsNarrow (shape_of t p opts.now part)) }
    ensures refused { IfErr result (λ e. IfFault e (IsRefused (shape_of t p opts.now part))) }
{
    are_sized(&t, &p, opts, part);
    let facts = facts(&t, &p, opts);
    let Ok(found) = variables(alloc, &t, &p, opts, part) else {
        return Err(Refusal::OutOfMemory);
    };
    let Made { shape, clock, uses } = found;
    let shape = Shape::new(alloc, shape)?;
    Ok(Problem::of(ProblemParts {
        shape,
        first: first_of(part),
        clock: Items::of(clock),
        uses: Items::of(uses),
        signals: p.signals,
        facts,
        tables: t,
    }))
}

/// The first variable with which ranks would not fit.
pub fn wide_variable(fault: ShapeFault) -> u16
    ensures { fault ≡ ShapeFault.TooWide result }
{
    match fault {
        ShapeFault::TooWide { variable } => variable,
    }
}
