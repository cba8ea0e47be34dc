//! What each command that starts no threads does with the bytes of its inputs.
ghost use Rattle.std.specs.Prelude.{◌≡◌, ◌<◌, ◌≤◌, false, true, length, IfOk};
ghost use Rattle.call_io.specs.Gathered.{IsOfBytes};
ghost use Rattle.cmd_words.specs.Asked.{inputs_of, may_wait};
ghost use Rattle.cmd_words.specs.Words.{IsWithinLimits};
ghost use Rattle.ioc_project.specs.Read.{IsRead};
ghost use Rattle.resolver.specs.Due.{BoardTask, CheckTask, ExplainTask, OfBytes, OverProject, PinsTask, TreeTask, input_at};
ghost use Rattle.resolver.specs.HomeTree.{fixed};
ghost use Rattle.res_model.specs.declared.opts.Free.TheVariants.{Pins};
ghost use Rattle.resolver.specs.Opening.{AreInputs};

use crate::home_tree::{hertz_fit, home_text};
use crate::on_homes::{can, i2s, trace};
use answers::{Answer, Status};
use cmd_words::Command;
use project_reading::{Opened, open_project};
use res_base::{Items, OutOfMemory};
use res_model::{Free, Opts, Project, Tables};
use std::alloc::Global;

/// The bytes of the input at this place.
pub(crate) fn input_at(files: &[Items<u8>], place: usize, _count: usize) -> &[u8]
    requires files { AreInputs _count files.now }
    requires place { place < _count }
    ensures bytes { result.now ≡ input_at files.now place }
    ensures few { length result.now ≤ 67108864 }
{
    files[place].as_slice()
}

/// The least placement of a project's signals.
fn placed(
    alloc: Global,
    tables: Tables,
    project: Project,
    opts: &Opts,
) -> Result<Answer, OutOfMemory>
    requires { IsRead tables opts.now false project }
    ensures due { IfOk result (PinsTask opts.now tables project) }
    ensures status { IfOk result (λ a. IsOfBytes a.status) }
{
    hertz_fit(&tables);
    solver::place(alloc, tables, project, opts)
}

/// `pins`: the least placement of the signals.
fn pins(alloc: Global, files: &[Items<u8>], opts: &Opts) -> Result<Answer, OutOfMemory>
    requires { AreInputs 2 files.now }
    ensures due { IfOk result (OverProject opts.now false (PinsTask opts.now) files.now) }
    ensures status { IfOk result (λ a. IsOfBytes a.status) }
{
    match open_project(
        alloc,
        input_at(files, 0, 2),
        input_at(files, 1, 2),
        opts,
        false,
    )? {
        Opened::Project { tables, project } => placed(alloc, tables, project, opts),
        Opened::Refused(answer) => Ok(answer),
    }
}

/// Whether the text of a refutation is accepted.
fn checked(
    alloc: Global,
    tables: Tables,
    project: Project,
    opts: &Opts,
    text: &[u8],
) -> Result<Answer, OutOfMemory>
    requires read { IsRead tables opts.now true project }
    requires few { length text.now ≤ 67108864 }
    ensures due { IfOk result (CheckTask opts.now text.now tables project) }
    ensures status { IfOk result (λ a. IsOfBytes a.status) }
{
    hertz_fit(&tables);
    solver::check(alloc, tables, project, opts, text)
}

/// `check`: whether the text of a refutation is accepted.
fn check(alloc: Global, files: &[Items<u8>], opts: &Opts) -> Result<Answer, OutOfMemory>
    requires { AreInputs 3 files.now }
    ensures due { IfOk result (OverProject opts.now true (CheckTask opts.now (input_at files.now 2)) files.now) }
    ensures status { IfOk result (λ a. IsOfBytes a.status) }
{
    let text = input_at(files, 2, 3);
    match open_project(
        alloc,
        input_at(files, 0, 3),
        input_at(files, 1, 3),
        opts,
        true,
    )? {
        Opened::Project { tables, project } => checked(alloc, tables, project, opts, text),
        Opened::Refused(answer) => Ok(answer),
    }
}

/// The least choice of pins and of the clocks beside them.
fn boarded(
    alloc: Global,
    tables: Tables,
    project: Project,
    opts: &Opts,
) -> Result<Answer, OutOfMemory>
    requires { IsRead tables opts.now true project }
    ensures due { IfOk result (BoardTask opts.now tables project) }
    ensures status { IfOk result (λ a. IsOfBytes a.status) }
{
    hertz_fit(&tables);
    board_fit::board(alloc, tables, project, opts)
}

/// `board`: the least choice of pins and clocks, whatever its rank would be.
fn board(alloc: Global, files: &[Items<u8>], opts: &Opts) -> Result<Answer, OutOfMemory>
    requires { AreInputs 2 files.now }
    ensures due { IfOk result (OverProject opts.now true (BoardTask opts.now) files.now) }
    ensures status { IfOk result (λ a. IsOfBytes a.status) }
{
    match open_project(
        alloc,
        input_at(files, 0, 2),
        input_at(files, 1, 2),
        opts,
        true,
    )? {
        Opened::Project { tables, project } => boarded(alloc, tables, project, opts),
        Opened::Refused(answer) => Ok(answer),
    }
}

/// What the least choice changes against a project, or why there is none.
fn explained(
    alloc: Global,
    tables: Tables,
    project: Project,
    text: &[u8],
    opts: &Opts,
) -> Result<Answer, OutOfMemory>
    requires read { IsRead tables opts.now true project }
    requires few { length text.now ≤ 67108864 }
    ensures due { IfOk result (ExplainTask opts.now text.now tables project) }
    ensures status { IfOk result (λ a. IsOfBytes a.status) }
{
    hertz_fit(&tables);
    explain::explain(alloc, tables, project, text, opts)
}

/// `explain`: what the least choice changes, or why nothing fits and what to give up.
fn explain(alloc: Global, files: &[Items<u8>], opts: &Opts) -> Result<Answer, OutOfMemory>
    requires { AreInputs 2 files.now }
    ensures due { IfOk result (OverProject opts.now true (ExplainTask opts.now (input_at files.now 1)) files.now) }
    ensures status { IfOk result (λ a. IsOfBytes a.status) }
{
    let text = input_at(files, 1, 2);
    match open_project(alloc, input_at(files, 0, 2), text, opts, true)? {
        Opened::Project { tables, project } => explained(alloc, tables, project, text, opts),
        Opened::Refused(answer) => Ok(answer),
    }
}

/// The clock tree of a project's homes.
fn shown(
    alloc: Global,
    tables: Tables,
    project: Project,
    opts: &Opts,
) -> Result<Answer, OutOfMemory>
    requires read { IsRead tables opts.now true project }
    requires fixed { opts.now.free ≡ Pins }
    ensures due { IfOk result (TreeTask opts.now tables project) }
    ensures status { IfOk result (λ a. IsOfBytes a.status) }
{
    let text = home_text(alloc, &tables, &project, opts)?;
    Ok(Answer {
        status: Status::Done,
        text: Items::of(text),
    })
}

/// `tree`: the clock tree as the project has it. The clock variables are fixed.
fn tree(alloc: Global, files: &[Items<u8>], mut opts: Opts) -> Result<Answer, OutOfMemory>
    requires { AreInputs 2 files.now }
    ensures due { IfOk result (OverProject (fixed opts) true (TreeTask (fixed opts)) files.now) }
    ensures status { IfOk result (λ a. IsOfBytes a.status) }
{
    opts.free = Free::Pins;
    match open_project(
        alloc,
        input_at(files, 0, 2),
        input_at(files, 1, 2),
        &opts,
        true,
    )? {
        Opened::Project { tables, project } => shown(alloc, tables, project, &opts),
        Opened::Refused(answer) => Ok(answer),
    }
}

/// What a command that starts no threads owes for the bytes of its inputs.
pub(crate) fn of_bytes(
    alloc: Global,
    command: Command,
    files: &[Items<u8>],
) -> Result<Answer, OutOfMemory>
    requires files { AreInputs (length (inputs_of command)) files.now }
    requires limits { IsWithinLimits command }
    requires plain { may_wait command ≡ false }
    ensures due { IfOk result (OfBytes command files.now) }
    ensures status { IfOk result (λ a. IsOfBytes a.status) }
{
    match command {
        Command::Pins { opts, .. } => pins(alloc, files, &opts),
        Command::Tree { opts, .. } => tree(alloc, files, opts),
        Command::Check { opts, .. } => check(alloc, files, &opts),
        Command::Can {
            rate,
            point,
            tolerance,
            ..
        } => can(alloc, files, rate, point, tolerance),
        Command::I2s { rate, .. } => i2s(alloc, files, rate),
        Command::Board { opts, .. } => board(alloc, files, &opts),
        Command::Explain { opts, .. } => explain(alloc, files, &opts),
        Command::Trace { opts, .. } => trace(alloc, files, opts),
        Command::Resolve { .. }
        | Command::Case { .. }
        | Command::Dma { .. }
        | Command::Ioc { .. } => unreachable!(),
    }
}
