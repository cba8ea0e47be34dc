//! The rows of a signal: the pins that it can have.
ghost use Rattle.std.specs.Prelude.{◌≡◌, ◌≤◌, ◌<◌, ◌==◌, List, [], ◌∷◌, Some, map, length, option_map, IfOk, IfSome};
ghost use Rattle.std.specs.List.{list_any};
ghost use Rattle.table_members.specs.Forms.{counted, list, entries_after, may, need};
ghost use Rattle.mcu_tables.specs.Table.{pin_named, row, alt_row, pin_row, no_rows, rows};
ghost use Rattle.serde_json.specs.View.{view};
ghost use Rattle.table_members.specs.Places.{spelled, path_of, entry_path, Reads};

use crate::pins::place_of;
use refusal::Refusal;
use res_base::Items;
use res_model::{Mode, Pin, PinUse, Role};
use serde_json::Value;
use std::alloc::Global;
use table_members::{
    Flaw, Key, Place, Spot, counted_at, member_of, needed, number_at, two_of, word_of,
};

/// The place of the pin that a value names.
#[tactic(auto, unfolding(crate::specs::Table::pin_named))]
fn pin_named(pins: &[Pin], value: &Value) -> Option<u8>
    requires { length pins.now ≤ 144 }
    ensures { result ≡ pin_named pins.now (view value.now) }
{
    let name = word_of(value)?;
    match place_of(pins, name) {
        Some(place) => Some(place as u8),
        None => None,
    }
}

fn has_row(before: &[PinUse], pin: u8) -> bool
    ensures { result ≡ list_any (λ u. u.pin == pin) before.now }
{
    before.iter().any(|row| row.pin == pin)
}

fn row_at(
    before: &[PinUse],
    at: Place,
    pin: Option<u8>,
    mode: Mode,
) -> Result<PinUse, Refusal<Flaw>>
    ensures { Reads (λ u. u) result (row before.now (spelled at) pin mode) }
{
    let Some(pin) = pin else {
        return Err(Refusal::Fault(Flaw::BadField(at)));
    };
    if has_row(before, pin) {
        Err(Refusal::Fault(Flaw::Repeated(at)))
    } else {
        Ok(PinUse { pin, mode })
    }
}

#[tactic(auto, unfolding(crate::specs::Table::alt_row))]
fn alt_row(
    pins: &[Pin],
    before: &[PinUse],
    at: Place,
    value: &Value,
) -> Result<PinUse, Refusal<Flaw>>
    requires { length pins.now ≤ 144 }
    ensures { Reads (λ u. u) result (alt_row pins.now before.now (spelled at) (view value.now)) }
{
    let Some((first, second)) = two_of(value) else {
        return Err(Refusal::Fault(Flaw::BadField(at)));
    };
    let Some(pin) = pin_named(pins, first) else {
        return Err(Refusal::Fault(Flaw::BadField(at)));
    };
    let function = number_at(0, 15, at, second)?;
    row_at(before, at, Some(pin), Mode::Alt(function as u8))
}

fn each_alt_row(
    alloc: Global,
    pins: &[Pin],
    at: Spot,
    values: &[Value],
) -> Result<Vec<PinUse>, Refusal<Flaw>>
    requires { length pins.now ≤ 144 }
    ensures { Reads (λ v. v.items) result (entries_after (alt_row pins.now) (path_of at) [] (map view values.now)) }
{
    let mut found = Vec::new(alloc);
    for value in values {
        let row = alt_row(pins, found.as_slice(), Place::Entry(at, found.len()), value)?;
        found.push(row)?;
    }
    Ok(found)
}

#[tactic(auto, unfolding(table_members::specs::Forms::list))]
fn alt_rows(
    alloc: Global,
    pins: &[Pin],
    at: Spot,
    value: &Value,
) -> Result<Items<PinUse>, Refusal<Flaw>>
    requires { length pins.now ≤ 144 }
    ensures { Reads (λ v. v) result (list 1 16 (alt_row pins.now) (path_of at) (view value.now)) }
{
    let values = counted_at(at, value, 1, 16)?;
    Ok(Items::of(each_alt_row(alloc, pins, at, values)?))
}

#[tactic(auto, unfolding(crate::specs::Table::pin_row))]
fn pin_row(
    pins: &[Pin],
    mode: Mode,
    before: &[PinUse],
    at: Place,
    value: &Value,
) -> Result<PinUse, Refusal<Flaw>>
    requires { length pins.now ≤ 144 }
    ensures { Reads (λ u. u) result (pin_row pins.now mode before.now (spelled at) (view value.now)) }
{
    row_at(before, at, pin_named(pins, value), mode)
}

fn each_pin_row(
    alloc: Global,
    pins: &[Pin],
    mode: Mode,
    at: Spot,
    values: &[Value],
) -> Result<Vec<PinUse>, Refusal<Flaw>>
    requires { length pins.now ≤ 144 }
    ensures { Reads (λ v. v.items) result (entries_after (pin_row pins.now mode) (path_of at) [] (map view values.now)) }
{
    let mut found = Vec::new(alloc);
    for value in values {
        let row = pin_row(
            pins,
            mode,
            found.as_slice(),
            Place::Entry(at, found.len()),
            value,
        )?;
        found.push(row)?;
    }
    Ok(found)
}

#[tactic(auto, unfolding(table_members::specs::Forms::list))]
fn pin_rows(
    alloc: Global,
    pins: &[Pin],
    mode: Mode,
    least: usize,
    at: Spot,
    value: &Value,
) -> Result<Items<PinUse>, Refusal<Flaw>>
    requires { length pins.now ≤ 144 }
    ensures { Reads (λ v. v) result (list least 16 (pin_row pins.now mode) (path_of at) (view value.now)) }
{
    let values = counted_at(at, value, least, 16)?;
    Ok(Items::of(each_pin_row(alloc, pins, mode, at, values)?))
}

fn analog_rows(
    alloc: Global,
    pins: &[Pin],
    at: Spot,
    found: Option<&Value>,
) -> Result<Items<PinUse>, Refusal<Flaw>>
    requires { length pins.now ≤ 144 }
    ensures { Reads (λ v. v) result (may (list 0 16 (pin_row pins.now Mode.Analog)) [] (path_of at) (option_map (λ v. view v.now) found.entry)) }
{
    match found {
        Some(value) => pin_rows(alloc, pins, Mode::Analog, 0, at, value),
        None => Ok(Items::of(Vec::new(alloc))),
    }
}

#[tactic(auto, unfolding(crate::specs::Table::no_rows))]
fn no_rows(alloc: Global, at: Spot, found: Option<&Value>) -> Result<Items<PinUse>, Refusal<Flaw>>
    ensures { Reads (λ v. v) result (may no_rows [] (path_of at) (option_map (λ v. view v.now) found.entry)) }
{
    match found {
        Some(_) => Err(Refusal::Fault(Flaw::BadField(Place::Member(at)))),
        None => Ok(Items::of(Vec::new(alloc))),
    }
}

/// The rows of signal i, by its role.
#[tactic(auto, unfolding(crate::specs::Table::rows))]
pub fn rows_of(
    alloc: Global,
    pins: &[Pin],
    role: Role,
    i: usize,
    value: &Value,
) -> Result<Items<PinUse>, Refusal<Flaw>>
    requires { length pins.now ≤ 144 }
    ensures { Reads (λ v. v) result (rows pins.now role (entry_path Key.Signals i) (view value.now)) }
{
    let at = Spot::Inner(Key::Signals, i, Key::At);
    let found = member_of(value, Key::At);
    match role {
        Role::Alt => alt_rows(alloc, pins, at, needed(found, at)?),
        Role::Osc => pin_rows(alloc, pins, Mode::Osc, 1, at, needed(found, at)?),
        Role::Analog => analog_rows(alloc, pins, at, found),
        Role::Input | Role::Output | Role::Exti => no_rows(alloc, at, found),
    }
}
