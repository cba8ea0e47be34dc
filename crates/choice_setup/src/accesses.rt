//! The accesses of a choice.
ghost use Rattle.std.specs.Prelude.{◌≡◌, ◌≢◌, true, IfOk};
ghost use Rattle.choice_rank.specs.Choices.{IsChoice};
ghost use Rattle.init_gen.specs.Good.{IsAllowed, IsRight, IsSettable};
ghost use Rattle.init_gen.specs.Writes.{target_of, writes_of};
ghost use Rattle.reg_machine.specs.Legal.{IsLegal};
ghost use Rattle.reg_machine.specs.Reset.{reset_of};
ghost use Rattle.reg_machine.specs.Run.{Sound};
ghost use Rattle.res_model.specs.Valid.{IsValid};
ghost use Rattle.problem.specs.Meets.{meets};
ghost use Rattle.choice_setup.specs.SetUp.{setting_of};

use crate::laws::choices_are_allowed;
use crate::settings::setting_of;
use problem::Problem;
use reg_machine::Op;
use res_base::OutOfMemory;
use std::alloc::Global;

/// That a choice that meets every limit can be set up, and its table, which keeps every rule, allows it.
fn is_allowed(p: &Problem, at: &[u16])
    requires choice { IsChoice p.now.shape at.now }
    requires whole { p.now.first ≢ 0 }
    requires meets { meets p.now at.now ≡ true }
    ensures settable { IsSettable (setting_of p.now at.now) }
    ensures valid { IsValid p.now.tables }
    ensures allowed { IsAllowed p.now.tables (setting_of p.now at.now) }
{
    p.parts_agree();
    p.parts().tables.keeps_rules();
    choices_are_allowed();
}

/// The accesses that bring a chip from reset to a choice. They are sound: whatever flags come, none of them is
/// forbidden, each state on the way is legal, and the run ends, with the clocks and pins of the choice or at an await
/// that timed out.
pub fn generate(alloc: Global, p: &Problem, at: &[u16]) -> Result<Vec<Op>, OutOfMemory>
    requires choice { IsChoice p.now.shape at.now }
    requires whole { p.now.first ≢ 0 }
    requires meets { meets p.now at.now ≡ true }
    ensures writes { IfOk result (λ ops. ops.items ≡ writes_of (setting_of p.now at.now)) }
    ensures sound { IfOk result (λ ops. Sound (IsLegal p.now.tables (target_of (setting_of p.now at.now))) (IsRight (setting_of p.now at.now)) ops.items (reset_of p.now.tables (target_of (setting_of p.now at.now)))) }
{
    is_allowed(p, at);
    let setting = setting_of(p, at);
    init_gen::generate(alloc, &setting)
}
