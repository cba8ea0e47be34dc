//! The needs, which stand behind the signals.
ghost use Rattle.std.specs.Prelude.{◌≡◌, ◌≤◌, ◌+◌, length, IfOk};
ghost use Rattle.ioc_project.specs.Project.{capped, need_of, known_need, needs_from, few};
ghost use Rattle.refusal.specs.Refusals.{Gives, Tells};
ghost use Rattle.res_model.specs.Steps.{with_prefix};

use crate::fault::ProjectFault;
use refusal::Refusal;
use res_base::Text;
use res_model::{Pull, Signal, Speed, Tables};
use std::alloc::Global;

/// The greatest number of signals and needs together.
const MOST: usize = 160;

/// A number as a fault tells it: the greatest u32 stands for all greater ones.
fn capped(number: usize) -> u32
    ensures { result ≡ capped number }
{
    if number > 4294967295 {
        4294967295
    } else {
        number as u32
    }
}

/// The need of this number and name.
#[tactic(auto, unfolding(crate::specs::Project::need_of))]
fn need_of(
    alloc: Global,
    t: &Tables,
    number: usize,
    name: &Text,
) -> Result<Signal, Refusal<ProjectFault>>
    ensures { Gives (λ need. need) result (need_of t.now number name.now) }
{
    let need = capped(number);
    let Some(signal) = t.signal_named(name.as_str().as_bytes()) else {
        return Err(Refusal::Fault(ProjectFault::UnknownNeed { need }));
    };
    if signal.at.len() == 0 {
        return Err(Refusal::Fault(ProjectFault::UnknownNeed { need }));
    }
    Ok(Signal {
        name: Text::copy(alloc, signal.name.as_str())?,
        home: None,
        locked: false,
        need: true,
        pull: Pull::None,
        speed: Speed::Low,
    })
}

/// Appends the needs of these names.
pub(crate) fn push_needs(
    alloc: Global,
    t: &Tables,
    signals: &mut Vec<Signal>,
    names: &[Text],
) -> Result<(), Refusal<ProjectFault>>
    ensures { Gives (λ _. signals.new.items) result (with_prefix signals.old.items (needs_from t.now 1 names.now)) }
{
    for (at, name) in names.iter().enumerate() {
        let need = need_of(alloc, t, at + 1, name)?;
        signals.push(need)?;
    }
    Ok(())
}

/// Whether signals and needs are few enough.
#[tactic(auto, unfolding(crate::specs::Project::few))]
pub(crate) fn few(signals: &[Signal]) -> Result<(), Refusal<ProjectFault>>
    ensures { Tells (λ _. signals.now) result (few signals.now) }
{
    if signals.len() > MOST {
        return Err(Refusal::Fault(ProjectFault::TooMany {
            count: capped(signals.len()),
        }));
    }
    Ok(())
}
