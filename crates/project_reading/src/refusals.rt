//! The line and the status of each refusal.
ghost use Rattle.std.specs.Prelude.{◌≡◌, IfOk};
ghost use Rattle.answers.specs.Said.{Says};
ghost use Rattle.answers.specs.declared.answer.Status.TheVariants as status;
ghost use Rattle.project_reading.specs.Refusals.{table_refusal, text_refusal, project_refusal};

use answers::{Answer, Status, counts, names, says};
use ioc_project::ProjectFault;
use ioc_text::IocFault;
use mcu_tables::TableFault;
use res_base::OutOfMemory;
use std::alloc::Global;

/// What is said of a refused table.
pub fn refused_table(alloc: Global, fault: TableFault) -> Result<Answer, OutOfMemory>
    ensures { IfOk result (λ a. Says a status.TableRefused (table_refusal fault)) }
{
    let refused = Status::TableRefused;
    match fault {
        TableFault::NotJson => says(alloc, refused, "tables: not json"),
        TableFault::Missing { path } => names(alloc, refused, "tables: missing ", path.as_str()),
        TableFault::BadField { path } => names(alloc, refused, "tables: field ", path.as_str()),
        TableFault::Repeated { path } => names(alloc, refused, "tables: repeated ", path.as_str()),
        TableFault::ResetIllegal { limit } => {
            counts(alloc, refused, "tables: reset ", u64::from(limit.number()))
        }
    }
}

/// What is said of a refused text of a project.
pub(crate) fn refused_text(alloc: Global, fault: IocFault) -> Result<Answer, OutOfMemory>
    ensures { IfOk result (λ a. Says a status.ProjectRefused (text_refusal fault)) }
{
    let (text, line) = match fault {
        IocFault::LongLine { line } => ("project: long line ", line),
        IocFault::NoEquals { line } => ("project: no equals line ", line),
        IocFault::BadEscape { line } => ("project: escape line ", line),
        IocFault::TwiceKey { line } => ("project: twice line ", line),
    };
    counts(alloc, Status::ProjectRefused, text, u64::from(line))
}

/// What is said of a refused project.
pub(crate) fn refused_project(alloc: Global, fault: ProjectFault) -> Result<Answer, OutOfMemory>
    ensures { IfOk result (λ a. Says a status.ProjectRefused (project_refusal fault)) }
{
    let (text, number) = match fault {
        ProjectFault::WrongPart { line } => ("project: part line ", line),
        ProjectFault::UnknownPin { line } => ("project: pin line ", line),
        ProjectFault::UnknownSignal { line } => ("project: signal line ", line),
        ProjectFault::UnknownNeed { need } => ("project: need ", need),
        ProjectFault::NotCandidate { line } => ("project: candidate line ", line),
        ProjectFault::BadValue { line } => ("project: value line ", line),
        ProjectFault::OutOfTable { line } => ("project: table line ", line),
        ProjectFault::TooMany { count } => ("project: too many ", count),
    };
    counts(alloc, Status::ProjectRefused, text, u64::from(number))
}
