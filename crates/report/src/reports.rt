//! The report of a choice.
ghost use Rattle.std.specs.Prelude.{◌≡◌, ◌≢◌, IfOk};
ghost use Rattle.choice_rank.specs.Choices.{IsChoice};
ghost use Rattle.reg_machine.specs.Words.{IsOp};
ghost use Rattle.res_base.specs.Lists.{Each};
ghost use Rattle.report.specs.Reported.{report_text};

use crate::clocks::clocks_text;
use crate::placement::placement_text;
use c_print::c_text;
use problem::Problem;
use reg_machine::Op;
use res_base::OutOfMemory;
use std::alloc::Global;

/// The report of a choice of a whole problem: its placement, its clocks, and the C text of some accesses.
#[tactic(auto, unfolding(crate::specs::Reported::report_text))]
pub fn report_text(
    alloc: Global,
    p: &Problem,
    at: &[u16],
    ops: &[Op],
) -> Result<Vec<u8>, OutOfMemory>
    requires choice { IsChoice p.now.shape at.now }
    requires whole { p.now.first ≢ 0 }
    requires ops { Each IsOp ops.now }
    ensures { IfOk result (λ x. x.items ≡ report_text p.now at.now ops.now) }
{
    let mut out = placement_text(alloc, p, at)?;
    let clocks = clocks_text(alloc, p, at)?;
    let code = c_text(alloc, ops)?;
    out.extend_from_slice(clocks.as_slice())?;
    out.extend_from_slice(code.as_slice())?;
    Ok(out)
}
