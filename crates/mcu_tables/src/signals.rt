//! The signals of a table.
ghost use Rattle.std.specs.Prelude.{◌≡◌, ◌≤◌, ◌<◌, ◌==◌, List, [], ◌∷◌, Some, None, false, map, length, option_map, option_and_then, IfOk, IfSome, codes};
ghost use Rattle.std.specs.List.{list_any};
ghost use Rattle.std.specs.Str.{bytes_eq};
ghost use Rattle.table_members.specs.Forms.{counted, list, entries_after, flag, may, need, member};
ghost use Rattle.mcu_tables.specs.Table.{role_of, use_form, real_name, signal_name, some_text, signal};
ghost use Rattle.mcu_tables.specs.Seen.{AreSeen};
ghost use Rattle.serde_json.specs.View.{view};
ghost use Rattle.table_members.specs.Places.{spelled, path_of, entry_path, Reads};

use crate::rows::rows_of;
use refusal::Refusal;
use res_base::{Items, Text};
use res_model::{Pin, Role, TableSignal};
use serde_json::Value;
use std::alloc::Global;
use std::collections::BTreeMap;
use table_members::{
    Flaw, Key, Place, Spot, check_object, counted_at, flag_at, member_of, needed, text_at,
};

#[tactic(auto, unfolding(crate::specs::Table::role_of))]
fn role_of(word: &str) -> Option<Role>
    ensures { result ≡ role_of word.now }
{
    if word == "alt" {
        Some(Role::Alt)
    } else if word == "input" {
        Some(Role::Input)
    } else if word == "output" {
        Some(Role::Output)
    } else if word == "analog" {
        Some(Role::Analog)
    } else if word == "exti" {
        Some(Role::Exti)
    } else if word == "osc" {
        Some(Role::Osc)
    } else {
        None
    }
}

#[tactic(auto, unfolding(crate::specs::Table::use_form))]
fn role_at(at: Place, value: &Value) -> Result<Role, Refusal<Flaw>>
    ensures { Reads (λ r. r) result (use_form (spelled at) (view value.now)) }
{
    let Some(word) = value.as_str() else {
        return Err(Refusal::Fault(Flaw::BadField(at)));
    };
    match role_of(word) {
        Some(role) => Ok(role),
        None => Err(Refusal::Fault(Flaw::BadField(at))),
    }
}

#[tactic(auto, unfolding(crate::specs::Table::real_name))]
fn real_name_at<'v>(at: Place, value: &'v Value) -> Result<&'v str, Refusal<Flaw>>
    ensures { Reads (λ s. s.now) result (real_name (spelled at) (view value.now)) }
{
    let name = text_at(at, value)?;
    if name == "-" {
        Err(Refusal::Fault(Flaw::BadField(at)))
    } else {
        Ok(name)
    }
}

/// The name of the next signal; `seen` holds the names of those before.
#[tactic(auto, unfolding(crate::specs::Table::signal_name))]
fn name_of<'v>(
    before: &[TableSignal],
    seen: &BTreeMap<String, ()>,
    value: &'v Value,
) -> Result<&'v str, Refusal<Flaw>>
    requires { AreSeen before.now seen.now }
    ensures { Reads (λ s. s.now) result (member (signal_name before.now) (entry_path Key.Signals (length before.now)) (codes "name") (view value.now)) }
{
    let at = Spot::Inner(Key::Signals, before.len(), Key::Name);
    let value = needed(member_of(value, Key::Name), at)?;
    let name = real_name_at(Place::Member(at), value)?;
    if seen.contains_key(name) {
        Err(Refusal::Fault(Flaw::Repeated(Place::Member(at))))
    } else {
        Ok(name)
    }
}

#[tactic(auto, unfolding(crate::specs::Table::some_text))]
fn ip_at(alloc: Global, at: Spot, found: Option<&Value>) -> Result<Option<Text>, Refusal<Flaw>>
    ensures { Reads (λ o. o) result (may some_text None (path_of at) (option_map (λ v. view v.now) found.entry)) }
{
    match found {
        Some(value) => Ok(Some(Text::copy(alloc, text_at(Place::Member(at), value)?)?)),
        None => Ok(None),
    }
}

fn drain_at(at: Spot, found: Option<&Value>) -> Result<bool, Refusal<Flaw>>
    ensures { Reads (λ b. b) result (may flag false (path_of at) (option_map (λ v. view v.now) found.entry)) }
{
    match found {
        Some(value) => flag_at(Place::Member(at), value),
        None => Ok(false),
    }
}

#[tactic(auto, unfolding(crate::specs::Table::signal))]
fn signal_at(
    alloc: Global,
    pins: &[Pin],
    before: &[TableSignal],
    seen: &BTreeMap<String, ()>,
    value: &Value,
) -> Result<TableSignal, Refusal<Flaw>>
    requires few { length pins.now ≤ 144 }
    requires seen { AreSeen before.now seen.now }
    ensures { Reads (λ s. s) result (signal pins.now before.now (entry_path Key.Signals (length before.now)) (view value.now)) }
{
    let i = before.len();
    check_object(Place::Entry(Spot::Top(Key::Signals), i), value)?;
    let name = name_of(before, seen, value)?;
    let at = Spot::Inner(Key::Signals, i, Key::Use);
    let role = role_at(Place::Member(at), needed(member_of(value, Key::Use), at)?)?;
    let ip = ip_at(
        alloc,
        Spot::Inner(Key::Signals, i, Key::Ip),
        member_of(value, Key::Ip),
    )?;
    let drain = drain_at(
        Spot::Inner(Key::Signals, i, Key::Drain),
        member_of(value, Key::Drain),
    )?;
    let at = rows_of(alloc, pins, role, i, value)?;
    let name = Text::copy(alloc, name)?;
    Ok(TableSignal {
        name,
        role,
        ip,
        drain,
        at,
    })
}

fn each_signal(
    alloc: Global,
    pins: &[Pin],
    values: &[Value],
) -> Result<Vec<TableSignal>, Refusal<Flaw>>
    requires { length pins.now ≤ 144 }
    ensures { Reads (λ v. v.items) result (entries_after (signal pins.now) (path_of (Spot.Top Key.Signals)) [] (map view values.now)) }
{
    let mut found = Vec::new(alloc);
    let mut seen = BTreeMap::new(alloc);
    for value in values {
        let signal = signal_at(alloc, pins, found.as_slice(), &seen, value)?;
        seen.insert(String::from_str(alloc, signal.name.as_str())?, ())?;
        found.push(signal)?;
    }
    Ok(found)
}

/// The signals of the table.
#[tactic(auto, unfolding(table_members::specs::Forms::list))]
pub fn signals_of(
    alloc: Global,
    pins: &[Pin],
    value: &Value,
) -> Result<Items<TableSignal>, Refusal<Flaw>>
    requires { length pins.now ≤ 144 }
    ensures { Reads (λ v. v) result (list 0 2000 (signal pins.now) (path_of (Spot.Top Key.Signals)) (view value.now)) }
{
    let values = counted_at(Spot::Top(Key::Signals), value, 0, 2000)?;
    Ok(Items::of(each_signal(alloc, pins, values)?))
}
