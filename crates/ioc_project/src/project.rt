//! A project, step by step.
ghost use Rattle.std.specs.Prelude.{IfOk};
ghost use Rattle.ioc_project.specs.Read.{IsRead};
ghost use Rattle.ioc_project.specs.Project.{project_of};
ghost use Rattle.refusal.specs.Refusals.{Gives};

use crate::domains::{fixes_clock, fixes_signals, in_domains};
use crate::fault::ProjectFault;
use crate::homes::{homes_of, hse_of};
use crate::marks::marks_of;
use crate::needs::{few, push_needs};
use crate::part::{kept_of, part_of};
use crate::pins::pin_lines;
use crate::signals::push_signals;
use ioc_text::Ioc;
use refusal::Refusal;
use res_base::Items;
use res_model::{Opts, Project, Tables};
use std::alloc::Global;

/// Reads the project that the lines tell under a table, or its first refusal.
///
/// `clocks` says that clock variables are in play; their homes are then judged where `opts` fixes them.
pub fn read_project(
    alloc: Global,
    t: &Tables,
    ioc: &Ioc,
    opts: &Opts,
    clocks: bool,
) -> Result<Project, Refusal<ProjectFault>>
    ensures project { Gives (λ project. project) result (project_of t.now ioc.now opts.now clocks) }
    ensures keeps { IfOk result (IsRead t.now opts.now clocks) }
{
    project_under(alloc, t, ioc, opts, clocks)
}

/// The same, but for what it keeps.
#[tactic(auto, unfolding(crate::specs::Project::project_of))]
fn project_under(
    alloc: Global,
    t: &Tables,
    ioc: &Ioc,
    opts: &Opts,
    clocks: bool,
) -> Result<Project, Refusal<ProjectFault>>
    ensures { Gives (λ project. project) result (project_of t.now ioc.now opts.now clocks) }
{
    let parts = t.parts();
    part_of(parts, ioc)?;
    let kept = kept_of(ioc)?;
    let pins = pin_lines(alloc, ioc)?;
    let mut signals = Vec::new(alloc);
    push_signals(
        alloc,
        t,
        ioc,
        kept || fixes_signals(opts.free),
        &mut signals,
        pins.as_slice(),
    )?;
    push_needs(alloc, t, &mut signals, opts.needs.as_slice())?;
    few(signals.as_slice())?;
    let hse_hz = hse_of(parts, ioc)?;
    let clock = homes_of(parts, ioc)?;
    in_domains(parts, clocks && fixes_clock(opts.free), &clock)?;
    let marks = marks_of(alloc, parts, ioc, pins.as_slice())?;
    Ok(Project {
        signals: Items::of(signals),
        clock,
        hse_hz,
        marks: Items::of(marks),
    })
}
