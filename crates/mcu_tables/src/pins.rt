//! The pins of a table.
ghost use Rattle.std.specs.Prelude.{◌≡◌, ◌≤◌, ◌<◌, ◌==◌, List, [], ◌∷◌, Some, map, length, option_map, IfOk, IfSome};
ghost use Rattle.std.specs.List.{list_any};
ghost use Rattle.std.specs.Str.{bytes_eq};
ghost use Rattle.res_model.specs.PinNames.{pin_number, ten_and, is_digit, begins_with_digit, spot, place};
ghost use Rattle.table_members.specs.Forms.{counted, list, entries_after};
ghost use Rattle.mcu_tables.specs.Table.{pin, is_same_pin};
ghost use Rattle.serde_json.specs.View.{view};
ghost use Rattle.table_members.specs.Places.{spelled, path_of, Reads};

use refusal::Refusal;
use res_base::{Items, Text};
use res_model::Pin;
use serde_json::Value;
use std::alloc::Global;
use table_members::{Flaw, Key, Place, Spot, counted_at, text_at};

fn begins_with_digit(text: &[u8]) -> bool
    ensures { result ≡ begins_with_digit text.now }
{
    match text {
        [b'0'..=b'9', ..] => true,
        _ => false,
    }
}

/// 10 to 15, of what stands after the 1.
fn ten_and(text: &[u8]) -> Option<u8>
    ensures { result ≡ ten_and text.now }
{
    match text {
        [digit @ b'0'..=b'5', rest @ ..] if !begins_with_digit(rest) => Some(*digit - 38),
        _ => None,
    }
}

#[tactic(auto, unfolding(res_model::specs::PinNames::pin_number))]
fn pin_number(text: &[u8]) -> Option<u8>
    ensures { result ≡ pin_number text.now }
{
    let [digit @ b'0'..=b'9', rest @ ..] = text else {
        return None;
    };
    if !begins_with_digit(rest) {
        Some(*digit - b'0')
    } else if *digit == b'1' {
        ten_and(rest)
    } else {
        None
    }
}

/// The port and the number of a pin's name.
#[tactic(auto, unfolding(res_model::specs::PinNames::spot))]
fn spot_of(name: &[u8]) -> Option<(u8, u8)>
    ensures { result ≡ spot name.now }
{
    match name {
        [b'P', letter @ b'A'..=b'I', rest @ ..] => match pin_number(rest) {
            Some(number) => Some((*letter - b'A', number)),
            None => None,
        },
        _ => None,
    }
}

fn has_pin(before: &[Pin], name: &str, port: u8, number: u8) -> bool
    ensures { result ≡ list_any (is_same_pin name.now (port, number)) before.now }
{
    before.iter().any(|pin| pin.name.as_str() == name || pin.port == port && pin.number == number)
}

#[tactic(auto, unfolding(crate::specs::Table::pin))]
fn pin_at(alloc: Global, before: &[Pin], at: Place, value: &Value) -> Result<Pin, Refusal<Flaw>>
    ensures { Reads (λ p. p) result (pin before.now (spelled at) (view value.now)) }
{
    let name = text_at(at, value)?;
    let Some((port, number)) = spot_of(name.as_bytes()) else {
        return Err(Refusal::Fault(Flaw::BadField(at)));
    };
    if has_pin(before, name, port, number) {
        return Err(Refusal::Fault(Flaw::Repeated(at)));
    }
    let name = Text::copy(alloc, name)?;
    Ok(Pin { name, port, number })
}

fn each_pin(alloc: Global, values: &[Value]) -> Result<Vec<Pin>, Refusal<Flaw>>
    ensures reads { Reads (λ v. v.items) result (entries_after pin (path_of (Spot.Top Key.Pins)) [] (map view values.now)) }
    ensures long { IfOk result (λ v. length v.items ≡ length values.now) }
{
    let mut found = Vec::new(alloc);
    for value in values {
        let at = Place::Entry(Spot::Top(Key::Pins), found.len());
        let pin = pin_at(alloc, found.as_slice(), at, value)?;
        found.push(pin)?;
    }
    Ok(found)
}

/// The pins of the table.
#[tactic(auto, unfolding(table_members::specs::Forms::list))]
pub fn pins_of(alloc: Global, value: &Value) -> Result<Items<Pin>, Refusal<Flaw>>
    ensures reads { Reads (λ v. v) result (list 0 144 pin (path_of (Spot.Top Key.Pins)) (view value.now)) }
    ensures few { IfOk result (λ v. length v ≤ 144) }
{
    let values = counted_at(Spot::Top(Key::Pins), value, 0, 144)?;
    Ok(Items::of(each_pin(alloc, values)?))
}

/// The place of the pin of this name.
#[tactic(auto, unfolding(res_model::specs::PinNames::place))]
pub fn place_of(pins: &[Pin], name: &str) -> Option<usize>
    ensures place { result ≡ place pins.now name.now }
    ensures within { IfSome result (λ i. i < length pins.now) }
{
    pins.iter().position(|pin| pin.name.as_str() == name)
}
