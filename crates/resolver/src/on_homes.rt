//! Commands that ask for something of the clocks and pins as the project has them.
ghost use Rattle.std.specs.Prelude.{◌≡◌, ◌≤◌, length, true, IfOk};
ghost use Rattle.res_model.specs.Clock.{IsBetween};
ghost use Rattle.call_io.specs.Gathered.{IsOfBytes};
ghost use Rattle.ioc_project.specs.Read.{IsRead};
ghost use Rattle.resolver.specs.Due.{CanTask, I2sTask, OverProject, TraceTask, input_at};
ghost use Rattle.resolver.specs.HomeTree.{fixed, no_options};
ghost use Rattle.resolver.specs.Opening.{AreInputs};

use crate::commands::input_at;
use crate::home_tree::{Homes, hertz_fit, home_nodes, homes_of};
use answers::Answer;
use can_timing::answer;
use home_target::home_target;
use i2s_pll::i2s_answer;
use project_reading::{Opened, open_project};
use res_base::{Items, OutOfMemory};
use res_model::{Free, Opts, Project, Tables};
use std::alloc::Global;
use trace_answer::trace_answer;

/// The options of a command that takes none.
fn no_options(alloc: Global) -> Opts
    ensures { result ≡ no_options }
{
    Opts {
        vdd: 3300,
        needs: Items::of(Vec::new(alloc)),
        hclk: None,
        pclk1: None,
        pclk2: None,
        free: Free::Pins,
    }
}

/// The least bit timing of a CAN bus on PCLK1 of the homes.
fn timed(
    alloc: Global,
    tables: Tables,
    project: Project,
    rate: u32,
    point: u32,
    tolerance: u32,
) -> Result<Answer, OutOfMemory>
    requires { IsRead tables no_options true project }
    ensures due { IfOk result (CanTask rate point tolerance tables project) }
    ensures status { IfOk result (λ a. IsOfBytes a.status) }
{
    let opts = no_options(alloc);
    let clock = home_nodes(&tables, &project, &opts).pclk1;
    answer(alloc, clock, rate, point, tolerance)
}

/// `can`: the least bit timing of a CAN bus.
pub(crate) fn can(
    alloc: Global,
    files: &[Items<u8>],
    rate: u32,
    point: u32,
    tolerance: u32,
) -> Result<Answer, OutOfMemory>
    requires { AreInputs 2 files.now }
    ensures due { IfOk result (OverProject no_options true (CanTask rate point tolerance) files.now) }
    ensures status { IfOk result (λ a. IsOfBytes a.status) }
{
    match open_project(
        alloc,
        input_at(files, 0, 2),
        input_at(files, 1, 2),
        &no_options(alloc),
        true,
    )? {
        Opened::Project { tables, project } => timed(
            alloc, tables, project, rate, point, tolerance,
        ),
        Opened::Refused(answer) => Ok(answer),
    }
}

/// The PLLI2S of least error for a sample rate, on the homes.
fn played(alloc: Global, tables: Tables, project: Project, rate: u32) -> Result<Answer, OutOfMemory>
    requires read { IsRead tables no_options true project }
    requires rate { IsBetween 8000 192000 rate }
    ensures due { IfOk result (I2sTask rate tables project) }
    ensures status { IfOk result (λ a. IsOfBytes a.status) }
{
    let opts = no_options(alloc);
    let Homes { facts, choice } = homes_of(&tables, &project, &opts);
    i2s_answer(alloc, &tables, &facts, &choice, rate)
}

/// `i2s`: the PLLI2S of a sample rate.
pub(crate) fn i2s(alloc: Global, files: &[Items<u8>], rate: u32) -> Result<Answer, OutOfMemory>
    requires files { AreInputs 2 files.now }
    requires rate { IsBetween 8000 192000 rate }
    ensures due { IfOk result (OverProject no_options true (I2sTask rate) files.now) }
    ensures status { IfOk result (λ a. IsOfBytes a.status) }
{
    match open_project(
        alloc,
        input_at(files, 0, 2),
        input_at(files, 1, 2),
        &no_options(alloc),
        true,
    )? {
        Opened::Project { tables, project } => played(alloc, tables, project, rate),
        Opened::Refused(answer) => Ok(answer),
    }
}

/// A C text run on the machine, for flag answers, where the project's homes are wanted.
fn traced(
    alloc: Global,
    tables: Tables,
    project: Project,
    opts: &Opts,
    c: &[u8],
    answers: &[u8],
) -> Result<Answer, OutOfMemory>
    requires read { IsRead tables opts.now true project }
    requires few { length c.now ≤ 67108864 }
    ensures due { IfOk result (TraceTask opts.now c.now answers.now tables project) }
    ensures status { IfOk result (λ a. IsOfBytes a.status) }
{
    hertz_fit(&tables);
    let want = home_target(alloc, &tables, &project, opts)?;
    trace_answer(alloc, &tables, &want, c, answers)
}

/// `trace`: what a C text does, step by step. The clock variables are fixed.
pub(crate) fn trace(
    alloc: Global,
    files: &[Items<u8>],
    mut opts: Opts,
) -> Result<Answer, OutOfMemory>
    requires { AreInputs 4 files.now }
    ensures due { IfOk result (OverProject (fixed opts) true (TraceTask (fixed opts) (input_at files.now 2) (input_at files.now 3)) files.now) }
    ensures status { IfOk result (λ a. IsOfBytes a.status) }
{
    opts.free = Free::Pins;
    let c = input_at(files, 2, 4);
    let answers = input_at(files, 3, 4);
    match open_project(
        alloc,
        input_at(files, 0, 4),
        input_at(files, 1, 4),
        &opts,
        true,
    )? {
        Opened::Project { tables, project } => traced(alloc, tables, project, &opts, c, answers),
        Opened::Refused(answer) => Ok(answer),
    }
}
