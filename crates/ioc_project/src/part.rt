//! The part and the package, the number of pins, and whether all signals are kept.
ghost use Rattle.std.specs.Prelude.{◌≡◌, false, codes};
ghost use Rattle.std.specs.List.{list_any};
ghost use Rattle.std.specs.Str.{bytes_eq};
ghost use Rattle.ioc_text.specs.Lines.{line_at};
ghost use Rattle.res_model.specs.Numbers.{number_of};
ghost use Rattle.ioc_project.specs.Project.{truth_of, value_or, named_part, named_package, part_of, kept_of};
ghost use Rattle.refusal.specs.Refusals.{Tells};

use crate::fault::ProjectFault;
use crate::values::{number_of, truth_at};
use ioc_text::Ioc;
use refusal::Refusal;
use res_base::Text;
use res_model::TableParts;

fn is_name(names: &[Text], name: &[u8]) -> bool
    ensures { result ≡ list_any (bytes_eq name.now) names.now }
{
    names.iter().any(|n| name == n.as_str().as_bytes())
}

fn named_part(t: &TableParts, ioc: &Ioc) -> Result<(), Refusal<ProjectFault>>
    ensures { Tells (λ unit. unit) result (named_part t.now (line_at ioc.now (codes "Mcu.Name"))) }
{
    let Some(line) = ioc.get(b"Mcu.Name") else {
        return Err(Refusal::Fault(ProjectFault::WrongPart { line: 0 }));
    };
    if !is_name(t.names.as_slice(), line.value.as_slice()) {
        return Err(Refusal::Fault(ProjectFault::WrongPart { line: line.number }));
    }
    Ok(())
}

fn named_package(t: &TableParts, ioc: &Ioc) -> Result<(), Refusal<ProjectFault>>
    ensures { Tells (λ unit. unit) result (named_package t.now (line_at ioc.now (codes "Mcu.Package"))) }
{
    let Some(line) = ioc.get(b"Mcu.Package") else {
        return Ok(());
    };
    if line.value.as_slice() != t.package.as_str().as_bytes() {
        return Err(Refusal::Fault(ProjectFault::WrongPart { line: line.number }));
    }
    Ok(())
}

/// Whether the part and the package are the table's.
#[tactic(auto, unfolding(crate::specs::Project::part_of))]
pub(crate) fn part_of(t: &TableParts, ioc: &Ioc) -> Result<(), Refusal<ProjectFault>>
    ensures { Tells (λ unit. unit) result (part_of t.now ioc.now) }
{
    named_part(t, ioc)?;
    named_package(t, ioc)
}

/// The number of pins has no other use than to be read.
fn pins_count(ioc: &Ioc) -> Result<u64, Refusal<ProjectFault>>
    ensures { Tells (λ count. count) result (value_or 0 number_of (line_at ioc.now (codes "Mcu.PinsNb"))) }
{
    let Some(line) = ioc.get(b"Mcu.PinsNb") else {
        return Ok(0);
    };
    number_of(line.value.as_slice()).ok_or(Refusal::Fault(ProjectFault::BadValue {
        line: line.number,
    }))
}

/// Whether all signals are kept.
#[tactic(auto, unfolding(crate::specs::Project::kept_of))]
pub(crate) fn kept_of(ioc: &Ioc) -> Result<bool, Refusal<ProjectFault>>
    ensures { Tells (λ kept. kept) result (kept_of ioc.now) }
{
    pins_count(ioc)?;
    truth_at(ioc, b"KeepUserPlacement")
}
