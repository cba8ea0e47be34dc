//! The text of a choice's clocks.
ghost use Rattle.std.specs.Prelude.{◌≡◌, ◌≢◌, IfOk};
ghost use Rattle.choice_rank.specs.Choices.{IsChoice};
ghost use Rattle.problem.specs.ClockValues.{clock_at};
ghost use Rattle.res_model.specs.Clock.{AreFacts, IsInRange};
ghost use Rattle.report.specs.Reported.{tree_text};

use clock_tree::tree_text;
use power_flash::wait_at;
use problem::{Problem, clocks_are_in_range};
use res_base::OutOfMemory;
use res_model::ClockChoice;
use std::alloc::Global;

/// The clocks of a choice of a whole problem.
pub(crate) fn clock_in(p: &Problem, at: &[u16]) -> ClockChoice
    requires choice { IsChoice p.now.shape at.now }
    requires whole { p.now.first ≢ 0 }
    ensures clock { result ≡ clock_at p.now.clock at.now }
    ensures in_range { IsInRange result }
    ensures facts { AreFacts p.now.facts }
{
    p.parts_agree();
    clocks_are_in_range();
    p.clock_of(at)
}

/// The text of the clocks of a choice of a whole problem.
pub fn clocks_text(alloc: Global, p: &Problem, at: &[u16]) -> Result<Vec<u8>, OutOfMemory>
    requires choice { IsChoice p.now.shape at.now }
    requires whole { p.now.first ≢ 0 }
    ensures { IfOk result (λ x. x.items ≡ tree_text p.now (clock_at p.now.clock at.now)) }
{
    let c = clock_in(p, at);
    let parts = p.parts();
    tree_text(
        alloc,
        &parts.facts,
        &c,
        wait_at(&parts.tables, &parts.facts, &c),
    )
}
