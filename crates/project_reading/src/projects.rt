//! A table and a project, from their bytes.
ghost use Rattle.std.specs.Prelude.{◌≤◌, length, IfOk};
ghost use Rattle.project_reading.specs.Reading.{project_from, project_from_lines, project_from_text};
ghost use Rattle.project_reading.specs.Opening.{IsOpened};

use crate::refusals::{refused_project, refused_table, refused_text};
use answers::Answer;
use ioc_project::read_project;
use ioc_text::{Ioc, read_ioc};
use mcu_tables::read_tables;
use refusal::Refusal;
use res_base::OutOfMemory;
use res_model::{Opts, Project, Tables};
use std::alloc::Global;

/// A table and a project under it, or what is said of the first fault.
#[derive(Drop)]
pub enum Opened {
    Project { tables: Tables, project: Project },
    Refused(Answer),
}

/// The project that lines say under a table.
fn open_lines(
    alloc: Global,
    tables: Tables,
    ioc: &Ioc,
    opts: &Opts,
    clocks: bool,
) -> Result<Opened, OutOfMemory>
    ensures { IfOk result (IsOpened opts.now clocks (project_from_lines opts.now clocks tables ioc.now)) }
{
    match read_project(alloc, &tables, ioc, opts, clocks) {
        Ok(project) => Ok(Opened::Project { tables, project }),
        Err(Refusal::Fault(fault)) => {
            let answer = refused_project(alloc, fault)?;
            Ok(Opened::Refused(answer))
        }
        Err(Refusal::OutOfMemory) => Err(OutOfMemory),
    }
}

/// The project that a text says under a table.
fn open_text(
    alloc: Global,
    tables: Tables,
    text: &[u8],
    opts: &Opts,
    clocks: bool,
) -> Result<Opened, OutOfMemory>
    requires { length text.now ≤ 67108864 }
    ensures { IfOk result (IsOpened opts.now clocks (project_from_text opts.now clocks tables text.now)) }
{
    match read_ioc(alloc, text) {
        Ok(ioc) => open_lines(alloc, tables, &ioc, opts, clocks),
        Err(Refusal::Fault(fault)) => {
            let answer = refused_text(alloc, fault)?;
            Ok(Opened::Refused(answer))
        }
        Err(Refusal::OutOfMemory) => Err(OutOfMemory),
    }
}

/// The table and the project that two texts say, or what is said of the first fault. `clocks` says that clock variables
/// are in play.
pub fn open_project(
    alloc: Global,
    table: &[u8],
    text: &[u8],
    opts: &Opts,
    clocks: bool,
) -> Result<Opened, OutOfMemory>
    requires { length text.now ≤ 67108864 }
    ensures { IfOk result (IsOpened opts.now clocks (project_from opts.now clocks table.now text.now)) }
{
    match read_tables(alloc, table) {
        Ok(tables) => open_text(alloc, tables, text, opts, clocks),
        Err(Refusal::Fault(fault)) => {
            let answer = refused_table(alloc, fault)?;
            Ok(Opened::Refused(answer))
        }
        Err(Refusal::OutOfMemory) => Err(OutOfMemory),
    }
}
