//! The text of a placement, with its rank.
ghost use Rattle.std.specs.Prelude.{◌≡◌, ◌++◌, ◌≤◌, [], ◌∷◌, drop, length, slice_get, IfOk, OnOk};
ghost use Rattle.choice_rank.specs.Choices.{IsChoice, choices_of, cost_of, rank_of};
ghost use Rattle.report.specs.PinText.{pins_text, rank_line};
ghost use Rattle.res_model.specs.Placement.{uses_at};
ghost use Rattle.report.specs.Placed.{placement_text, uses_of};

use crate::lines::{put_pins_text, put_rank_line};
use problem::Problem;
use res_base::{Items, OutOfMemory};
use res_model::PinUse;
use std::alloc::Global;

fn value_at(values: &Items<PinUse>, at: u16) -> Option<PinUse>
    ensures { result ≡ slice_get values.now at }
{
    values.as_slice().get(at as usize).copied()
}

/// The values at the positions, one for each signal.
fn uses_at(alloc: Global, values: &[Items<PinUse>], at: &[u16]) -> Result<Vec<PinUse>, OutOfMemory>
    ensures { IfOk result (λ us. us.items ≡ uses_at values.now at.now) }
{
    let count = values.len().min(at.len());
    let mut found = Vec::with_capacity(alloc, count)?;
    for k in 0..count {
        if let Some(value) = value_at(&values[k], at[k]) {
            found.push(value)?;
        }
    }
    Ok(found)
}

/// That a choice has a position for each clock variable, and a use for each signal.
fn has_places(p: &Problem, at: &[u16])
    requires { IsChoice p.now.shape at.now }
    ensures first { p.now.first ≤ length at.now }
    ensures as_many { length (uses_of p.now at.now) ≡ length p.now.signals }
{
    p.parts_agree();
}

/// What stands from a place on.
fn from_place(at: &[u16], first: u16) -> &[u16]
    requires { first ≤ length at.now }
    ensures { result.now ≡ drop first at.now }
{
    &at[first as usize..]
}

/// The uses of a choice, one for each signal.
fn uses_of(alloc: Global, p: &Problem, at: &[u16]) -> Result<Vec<PinUse>, OutOfMemory>
    requires { IsChoice p.now.shape at.now }
    ensures uses { IfOk result (λ us. us.items ≡ uses_of p.now at.now) }
{
    has_places(p, at);
    let parts = p.parts();
    uses_at(alloc, parts.uses.as_slice(), from_place(at, parts.first))
}

/// Appends the rank line of a choice.
fn put_rank(alloc: Global, out: &mut Vec<u8>, p: &Problem, at: &[u16]) -> Result<(), OutOfMemory>
    requires { IsChoice p.now.shape at.now }
    ensures { OnOk result (out.new.items ≡ out.old.items ++ rank_line (rank_of p.now.shape at.now) (cost_of p.now.shape at.now) (choices_of p.now.shape)) }
{
    let shape = &p.parts().shape;
    let _vars = shape.vars();
    put_rank_line(alloc, out, shape.rank(at), shape.cost(at), shape.choices())?;
    Ok(())
}

/// Appends the number of signals, and a line for each of them.
fn put_pins(alloc: Global, out: &mut Vec<u8>, p: &Problem, at: &[u16]) -> Result<(), OutOfMemory>
    requires { IsChoice p.now.shape at.now }
    ensures { OnOk result (out.new.items ≡ out.old.items ++ pins_text p.now.tables p.now.signals (uses_of p.now at.now)) }
{
    has_places(p, at);
    let uses = uses_of(alloc, p, at)?;
    let parts = p.parts();
    put_pins_text(
        alloc,
        out,
        parts.tables.parts(),
        parts.signals.as_slice(),
        uses.as_slice(),
    )?;
    Ok(())
}

/// The pins of a choice: the number of signals, and a line for each of them with its pin, mode and state.
pub fn pins_text(alloc: Global, p: &Problem, at: &[u16]) -> Result<Vec<u8>, OutOfMemory>
    requires { IsChoice p.now.shape at.now }
    ensures { IfOk result (λ x. x.items ≡ pins_text p.now.tables p.now.signals (uses_of p.now at.now)) }
{
    let mut out = Vec::new(alloc);
    put_pins(alloc, &mut out, p, at)?;
    Ok(out)
}

/// The text of a placement: its rank line, and its pins below it.
#[tactic(auto, unfolding(crate::specs::Placed::placement_text))]
pub fn placement_text(alloc: Global, p: &Problem, at: &[u16]) -> Result<Vec<u8>, OutOfMemory>
    requires { IsChoice p.now.shape at.now }
    ensures { IfOk result (λ x. x.items ≡ placement_text p.now at.now) }
{
    let mut out = Vec::new(alloc);
    put_rank(alloc, &mut out, p, at)?;
    put_pins(alloc, &mut out, p, at)?;
    Ok(out)
}
