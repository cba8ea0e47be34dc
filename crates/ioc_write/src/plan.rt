//! What is worked out once, before the lines are walked.
ghost use Rattle.std.specs.Prelude.{◌≡◌, ◌≢◌, ◌≤◌, ◌<◌, drop, length, slice_get, slice_index, slice_index_or, IfOk};
ghost use Rattle.choice_rank.specs.Choices.{IsChoice};
ghost use Rattle.res_model.specs.Placement.{uses_at};
ghost use Rattle.res_model.specs.Valid.{ArePins};
ghost use Rattle.problem.specs.ClockValues.{clock_at};
ghost use Rattle.ioc_write.specs.Plans.{IsPlan};
ghost use Rattle.ioc_write.specs.WriteBack.{fate_named, fate_at, is_away, no_variable, pin_name, uses_of};
ghost use Rattle.ioc_write.specs.declared.fate.Fate.TheVariants as fate;

use crate::fate::{Fate, fates_of};
use crate::spots::{place_of, spots_of};
use crate::variable::{Variable, costs};
use choice_rank::VarShape;
use problem::Problem;
use res_base::{Items, OutOfMemory};
use res_model::{ClockChoice, Pin, PinUse, TableParts, Tables};
use std::alloc::Global;

/// A problem and a choice, an index of the pins, what becomes of the lines of each pin, and the number of the output's
/// keys `Mcu.Pin<k>`.
#[derive(Drop)]
pub(crate) struct Plan<'p> {
    pub(crate) problem: &'p Problem,
    pub(crate) at: &'p [u16],
    pub(crate) spots: Items<Option<usize>>,
    pub(crate) fates: Items<Fate>,
    pub(crate) pins: u64,
}

fn value_at(values: &Items<PinUse>, at: u16) -> Option<PinUse>
    ensures { result ≡ slice_get values.now at }
{
    values.as_slice().get(at as usize).copied()
}

/// The values at the positions, one for each signal.
fn uses_at(alloc: Global, values: &[Items<PinUse>], at: &[u16]) -> Result<Vec<PinUse>, OutOfMemory>
    ensures { IfOk result (λ us. us.items ≡ uses_at values.now at.now) }
{
    let count = values.len().min(at.len());
    let mut found = Vec::with_capacity(alloc, count)?;
    for k in 0..count {
        if let Some(value) = value_at(&values[k], at[k]) {
            found.push(value)?;
        }
    }
    Ok(found)
}

/// That a choice has a position for each clock variable, and a use for each signal.
fn has_places(p: &Problem, at: &[u16])
    requires { IsChoice p.now.shape at.now }
    ensures first { p.now.first ≤ length at.now }
    ensures as_many { length (uses_of p.now at.now) ≡ length p.now.signals }
{
    p.parts_agree();
}

/// What stands from a place on.
fn from_place(at: &[u16], first: u16) -> &[u16]
    requires { first ≤ length at.now }
    ensures { result.now ≡ drop first at.now }
{
    &at[first as usize..]
}

/// The uses of a choice, one for each signal.
pub(crate) fn uses_of(alloc: Global, p: &Problem, at: &[u16]) -> Result<Vec<PinUse>, OutOfMemory>
    requires { IsChoice p.now.shape at.now }
    ensures uses { IfOk result (λ us. us.items ≡ uses_of p.now at.now) }
    ensures as_many { length (uses_of p.now at.now) ≡ length p.now.signals }
{
    has_places(p, at);
    let parts = p.parts();
    uses_at(alloc, parts.uses.as_slice(), from_place(at, parts.first))
}

/// That the pins of a table are few, and differ in port or number.
fn are_pins(t: &Tables)
    ensures { ArePins t.now.pins }
{
    t.keeps_rules();
}

/// The plan by which a choice is written.
pub(crate) fn plan_of<'p>(
    alloc: Global,
    p: &'p Problem,
    at: &'p [u16],
    uses: &[PinUse],
    pins: u64,
) -> Result<Plan<'p>, OutOfMemory>
    requires choice { IsChoice p.now.shape at.now }
    requires whole { p.now.first ≢ 0 }
    requires uses { uses.now ≡ uses_of p.now at.now }
    ensures plan { IfOk result (λ plan. IsPlan plan) }
    ensures problem { IfOk result (λ plan. plan.problem.now ≡ p.now) }
    ensures at { IfOk result (λ plan. plan.at.now ≡ at.now) }
    ensures pins { IfOk result (λ plan. plan.pins ≡ pins) }
{
    has_places(p, at);
    let parts = p.parts();
    are_pins(&parts.tables);
    let named = parts.tables.parts().pins.as_slice();
    let spots = spots_of(alloc, named)?;
    let fates = fates_of(alloc, parts.signals.as_slice(), uses, named.len())?;
    Ok(Plan {
        problem: p,
        at,
        spots: Items::of(spots),
        fates: Items::of(fates),
        pins,
    })
}

fn fate_at(fates: &[Fate], place: usize) -> Fate
    ensures { result ≡ slice_index_or fates.now place fate.Kept }
{
    match fates.get(place) {
        Some(found) => *found,
        None => Fate::Kept,
    }
}

fn variable_at(vars: &[VarShape], number: usize) -> VarShape
    requires { number < length vars.now }
    ensures { result ≡ slice_index_or vars.now number no_variable }
{
    vars[number]
}

fn position_at(at: &[u16], number: usize) -> u16
    requires { number < length at.now }
    ensures { result ≡ slice_index at.now number }
{
    at[number]
}

/// That a whole problem has the clock variables.
fn has_clocks(p: &Problem, at: &[u16])
    requires choice { IsChoice p.now.shape at.now }
    requires whole { p.now.first ≢ 0 }
    ensures shape { 9 < length p.now.shape }
    ensures at { 9 < length at.now }
{
    p.parts_agree();
}

/// The name of the pin at a place.
pub(crate) fn pin_name(t: &TableParts, pin: u8) -> &[u8]
    ensures { result.now ≡ pin_name t.now pin }
{
    match t.pins.as_slice().get(pin as usize) {
        Some(found) => found.name.as_str().as_bytes(),
        None => &[],
    }
}

impl Plan<'_> {
    fn pins(&self) -> &[Pin]
        ensures { result.now ≡ self.now.problem.now.tables.pins }
    {
        self.problem.parts().tables.parts().pins.as_slice()
    }

    /// What becomes of the lines of a name.
    #[tactic(auto, unfolding(crate::specs::WriteBack::fate_named))]
    pub(crate) fn fate_named(&self, name: &[u8]) -> Fate
        requires { IsPlan self.now }
        ensures { result ≡ fate_named self.now.problem.now self.now.at.now name.now }
    {
        match place_of(self.pins(), self.spots.as_slice(), name) {
            Some(place) => fate_at(self.fates.as_slice(), place),
            None => Fate::Kept,
        }
    }

    /// The name of the pin at a place.
    pub(crate) fn pin_name(&self, pin: u8) -> &[u8]
        ensures { result.now ≡ pin_name self.now.problem.now.tables pin }
    {
        pin_name(self.problem.parts().tables.parts(), pin)
    }

    /// Whether a clock variable is away from its home.
    #[tactic(auto, unfolding(crate::specs::WriteBack::is_away))]
    pub(crate) fn is_away(&self, v: Variable) -> bool
        requires { IsPlan self.now }
        ensures { result ≡ is_away self.now.problem.now self.now.at.now v }
    {
        has_clocks(self.problem, self.at);
        let vars = self.problem.parts().shape.vars();
        costs(
            variable_at(vars, v.number()),
            position_at(self.at, v.number()),
        )
    }

    /// The clocks of the choice.
    pub(crate) fn clocks(&self) -> ClockChoice
        requires { IsPlan self.now }
        ensures { result ≡ clock_at self.now.problem.now.clock self.now.at.now }
    {
        self.problem.clock_of(self.at)
    }
}
