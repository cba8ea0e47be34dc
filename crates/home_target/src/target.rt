//! The target.
ghost use Rattle.std.specs.Prelude.{◌≡◌, IfOk};
ghost use Rattle.res_base.specs.Lists.{Each};
ghost use Rattle.res_model.specs.Placed.{IsPlaced};
ghost use Rattle.home_target.specs.Homes.{home_target};

use crate::homes::home_modes;
use ioc_project::facts;
use reg_machine::Target;
use res_base::OutOfMemory;
use res_model::{Opts, Project, Tables};
use std::alloc::Global;

/// The facts of a project's clocks, and the mode of each home. A home at which a signal with rows has no row has none.
#[tactic(auto, unfolding(crate::specs::Homes::home_target))]
pub fn home_target(
    alloc: Global,
    t: &Tables,
    p: &Project,
    opts: &Opts,
) -> Result<Target, OutOfMemory>
    requires { Each (IsPlaced t.now) p.now.signals }
    ensures target { IfOk result (λ want. want ≡ home_target t.now p.now opts.now) }
    ensures hse { IfOk result (λ want. want.facts.hse_hz ≡ p.now.hse_hz) }
{
    let pins = home_modes(alloc, t, p.signals.as_slice())?;
    Ok(Target {
        facts: facts(t, p, opts),
        pins,
    })
}
