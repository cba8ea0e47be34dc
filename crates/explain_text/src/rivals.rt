//! Signals that have too few pins, or interrupts that have too few lines.
ghost use Rattle.std.specs.Prelude.{◌≡◌, ◌<◌, ◌==◌, ◌||◌, ◌++◌, ℕ, IfOk, OnOk, option_copied, string_bytes};
ghost use Rattle.std.specs.List.{flat_map, list_any};
ghost use Rattle.res_base.specs.VarSet.{in_set};
ghost use Rattle.box_rules.specs.Contest.{resource_of};
ghost use Rattle.res_model.specs.Placement.{number_of};
ghost use Rattle.explain_text.specs.Joined.{joined};
ghost use Rattle.explain_text.specs.Names.{pin_name, signal_of, values_of};
ghost use Rattle.explain_text.specs.Reasons.{hall_text, head_line, is_wanted_by, member_line, pin_word, resources, wants_line};

use crate::hertz::put_number;
use problem::ProblemParts;
use res_base::{OutOfMemory, VarSet};
use res_model::{PinUse, Signal, TableParts, number_on_port};
use search_api::Class;
use std::alloc::{AllocError, Global};

/// The name of the pin at this place of a table's list; an empty one past its end.
#[tactic(auto, unfolding(crate::specs::Names::pin_name))]
pub fn pin_name(t: &TableParts, pin: u8) -> &str
    ensures { result.now ≡ pin_name t.now pin }
{
    match t.pins.as_slice().get(pin as usize) {
        Some(pin) => pin.name.as_str(),
        None => "",
    }
}

/// The signal that is the variable of this number.
#[tactic(auto, unfolding(crate::specs::Names::signal_of))]
fn signal_of(p: &ProblemParts, v: u8) -> Option<&Signal>
    ensures { option_copied result ≡ signal_of p.now v }
{
    let v = u16::from(v);
    if v < p.first {
        return None;
    }
    p.signals.as_slice().get((v - p.first) as usize)
}

/// The values of the signal that is the variable of this number.
#[tactic(auto, unfolding(crate::specs::Names::values_of))]
fn values_of(p: &ProblemParts, v: u8) -> &[PinUse]
    ensures { result.now ≡ values_of p.now v }
{
    let v = u16::from(v);
    if v < p.first {
        return &[];
    }
    match p.uses.as_slice().get((v - p.first) as usize) {
        Some(values) => values.as_slice(),
        None => &[],
    }
}

/// What a value competes for.
fn resource_of(t: &TableParts, class: Class, at: PinUse) -> u8
    ensures { result ≡ resource_of t.now class at }
{
    match class {
        Class::Pins => at.pin,
        Class::Exti => number_on_port(t, at.pin),
    }
}

/// Adds the resource of a value to a set, where the set can have it.
fn put_resource(t: &TableParts, class: Class, at: PinUse, found: &mut VarSet)
    ensures { (r : ℕ) → r < 192 → in_set found.new r ≡ (in_set found.old r || (resource_of t.now class at == r)) }
{
    let resource = resource_of(t, class, at);
    if resource >= 192 {
        return;
    }
    found.put(resource);
}

/// Adds the resources of values to a set.
fn put_resources(t: &TableParts, class: Class, values: &[PinUse], found: &mut VarSet)
    ensures { (r : ℕ) → r < 192 → in_set found.new r ≡ (in_set found.old r || list_any (λ u. resource_of t.now class u == r) values.now) }
{
    for at in values {
        put_resource(t, class, *at, found);
    }
}

/// Adds the resources of the values of a variable to a set, where the variable is one of these.
fn put_member_resources(p: &ProblemParts, class: Class, vars: &VarSet, v: u8, found: &mut VarSet)
    requires { v < 192 }
    ensures { (r : ℕ) → r < 192 → in_set found.new r ≡ (in_set found.old r || is_wanted_by p.now class vars.now r v) }
{
    if !vars.has(v) {
        return;
    }
    put_resources(p.tables.parts(), class, values_of(p, v), found);
}

/// How many resources the values of the variables have together.
#[tactic(auto, unfolding(crate::specs::Reasons::resources))]
fn resources(p: &ProblemParts, class: Class, vars: &VarSet) -> usize
    ensures { result ≡ resources p.now class vars.now }
{
    let mut found = VarSet::new();
    for v in 0..192u8 {
        put_member_resources(p, class, vars, v, &mut found);
    }
    found.len()
}

#[tactic(auto, unfolding(crate::specs::Reasons::head_line))]
fn head_line(alloc: Global, class: Class, few: u64, many: u64) -> Result<String, AllocError>
    ensures { IfOk result (λ x. string_bytes x ≡ head_line class few many) }
{
    let (first, last) = match class {
        Class::Pins => ("too few pins: ", " signals\n"),
        Class::Exti => ("too few pin numbers: ", " EXTI signals\n"),
    };
    let mut line = String::new(alloc);
    put_number(alloc, &mut line, first, few)?;
    put_number(alloc, &mut line, " for ", many)?;
    line.push_str(last)?;
    Ok(line)
}

/// Appends the pin of a value.
fn put_pin_word(line: &mut String, t: &TableParts, at: PinUse) -> Result<(), AllocError>
    ensures { OnOk result (string_bytes line.new ≡ string_bytes line.old ++ pin_word t.now at) }
{
    line.push_str(" ")?;
    line.push_str(pin_name(t, at.pin))
}

/// Appends the pins of values.
fn put_pin_words(line: &mut String, t: &TableParts, values: &[PinUse]) -> Result<(), AllocError>
    ensures { OnOk result (string_bytes line.new ≡ string_bytes line.old ++ flat_map (pin_word t.now) values.now) }
{
    for at in values {
        put_pin_word(line, t, *at)?;
    }
    Ok(())
}

/// A signal and the pins of its values.
#[tactic(auto, unfolding(crate::specs::Reasons::wants_line))]
fn wants_line(
    alloc: Global,
    t: &TableParts,
    name: &str,
    values: &[PinUse],
) -> Result<String, AllocError>
    ensures { IfOk result (λ x. string_bytes x ≡ wants_line t.now name.now values.now) }
{
    let mut line = String::from_str(alloc, name)?;
    line.push_str(" at")?;
    put_pin_words(&mut line, t, values)?;
    line.push_str("\n")?;
    Ok(line)
}

/// The line of the variable of this number, where it is of the set.
#[tactic(auto, unfolding(crate::specs::Reasons::member_line))]
fn member_line(alloc: Global, p: &ProblemParts, vars: &VarSet, v: u8) -> Result<String, AllocError>
    requires { v < 192 }
    ensures { IfOk result (λ x. string_bytes x ≡ member_line p.now vars.now v) }
{
    if !vars.has(v) {
        return Ok(String::new(alloc));
    }
    match signal_of(p, v) {
        None => Ok(String::new(alloc)),
        Some(signal) => wants_line(
            alloc,
            p.tables.parts(),
            signal.name.as_str(),
            values_of(p, v),
        ),
    }
}

/// Appends the line of each variable of the set.
fn put_members(
    alloc: Global,
    out: &mut Vec<u8>,
    p: &ProblemParts,
    vars: &VarSet,
) -> Result<(), OutOfMemory>
    ensures { OnOk result (out.new.items ≡ out.old.items ++ joined 192 (member_line p.now vars.now)) }
{
    for v in 0..192u8 {
        let line = member_line(alloc, p, vars, v)?;
        out.extend_from_slice(line.as_bytes())?;
    }
    Ok(())
}

/// Signals that are more than the pins, or the lines of interrupts, that they have together.
#[tactic(auto, unfolding(crate::specs::Reasons::hall_text))]
pub(crate) fn hall_text(
    alloc: Global,
    p: &ProblemParts,
    class: Class,
    vars: &VarSet,
) -> Result<Vec<u8>, OutOfMemory>
    ensures { IfOk result (λ x. x.items ≡ hall_text p.now class vars.now) }
{
    let few = resources(p, class, vars) as u64;
    let head = head_line(alloc, class, few, vars.len() as u64)?;
    let mut out = Vec::from_slice(alloc, head.as_bytes())?;
    put_members(alloc, &mut out, p, vars)?;
    Ok(out)
}
