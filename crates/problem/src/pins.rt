//! The values of the signals.
ghost use Rattle.std.specs.Prelude.{◌≡◌, ◌≤◌, ◌++◌, length, IfOk};
ghost use Rattle.res_base.specs.Lists.{Each};
ghost use Rattle.pin_rules.specs.Sizes.{IsSized};
ghost use Rattle.res_model.specs.Placed.{IsPlaced};
ghost use Rattle.res_model.specs.Values.{values_of, pin_values, pin_variables, variable_of};

use choice_rank::VarShape;
use pin_rules::{candidates, costs};
use res_base::{Items, OutOfMemory};
use res_model::{PinUse, Signal, Tables};
use std::alloc::Global;

/// The values of each signal.
pub(crate) fn pin_values(
    alloc: Global,
    t: &Tables,
    signals: &[Signal],
) -> Result<Vec<Items<PinUse>>, OutOfMemory>
    ensures { IfOk result (λ v. v.items ≡ pin_values t.now signals.now) }
{
    let mut found = Vec::with_capacity(alloc, signals.len())?;
    for signal in signals {
        let values = candidates(alloc, t, signal)?;
        found.push(Items::of(values))?;
    }
    Ok(found)
}

fn variable_of(t: &Tables, signal: &Signal, values: &[PinUse]) -> VarShape
    requires values { values.now ≡ values_of t.now signal.now }
    requires few { length values.now ≤ 16 }
    ensures { result ≡ variable_of t.now signal.now }
{
    VarShape {
        size: values.len() as u16,
        costs: costs(t, signal),
    }
}

/// Adds a variable for each signal, with a position for each of its values.
pub(crate) fn push_pin_variables(
    vars: &mut Vec<VarShape>,
    t: &Tables,
    signals: &[Signal],
    values: &[Items<PinUse>],
) -> Result<(), OutOfMemory>
    requires values { values.now ≡ pin_values t.now signals.now }
    requires sized { Each (IsSized t.now) signals.now }
    ensures { IfOk result (λ _. vars.new.items ≡ vars.old.items ++ pin_variables t.now signals.now) }
{
    for k in 0..signals.len() {
        let variable = variable_of(t, &signals[k], values[k].as_slice());
        vars.push(variable)?;
    }
    Ok(())
}
