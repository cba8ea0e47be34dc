//! The lines of the pins, in the order of their numbers.
ghost use Rattle.std.specs.Prelude.{◌≡◌, [], map, IfOk};
ghost use Rattle.ioc_project.specs.Project.{numbered, pin_lines};
ghost use Rattle.std.specs.BTreeMap.{values};
ghost use Rattle.ioc_project.specs.Views.{seen};

use ioc_text::{Ioc, Line, pin_number};
use res_base::OutOfMemory;
use std::alloc::{AllocError, Global};
use std::collections::BTreeMap;

/// The lines of keys `Mcu.Pin<k>`, by k.
fn numbered<'l>(alloc: Global, lines: &[&'l Line]) -> Result<BTreeMap<u64, &'l Line>, OutOfMemory>
    ensures { IfOk result (λ m. seen m.entries ≡ numbered [] (map (λ line. line.now) lines.now)) }
{
    let mut placed = BTreeMap::new(alloc);
    for line in lines {
        if let Some(k) = pin_number(line.key.as_slice()) {
            placed.insert(k, *line)?;
        }
    }
    Ok(placed)
}

fn in_order<'l>(
    alloc: Global,
    placed: &BTreeMap<u64, &'l Line>,
) -> Result<Vec<&'l Line>, AllocError>
    ensures { IfOk result (λ v. v.items ≡ values placed.now) }
{
    placed.values().copied().collect(alloc)
}

/// The lines of keys `Mcu.Pin<k>`, with k ascending.
#[tactic(auto, unfolding(crate::specs::Project::pin_lines))]
pub(crate) fn pin_lines(alloc: Global, ioc: &Ioc) -> Result<Vec<&Line>, OutOfMemory>
    ensures { IfOk result (λ v. map (λ line. line.now) v.items ≡ pin_lines ioc.now) }
{
    let lines = ioc.lines(alloc)?;
    let placed = numbered(alloc, lines.as_slice())?;
    let pins = in_order(alloc, &placed)?;
    Ok(pins)
}
