//! The IPs of a table.
ghost use Rattle.std.specs.Prelude.{◌≡◌, ◌≤◌, ◌<◌, ◌==◌, List, [], ◌∷◌, Some, None, false, map, length, option_map, option_and_then, IfOk, IfSome};
ghost use Rattle.std.specs.List.{list_any};
ghost use Rattle.std.specs.Str.{bytes_eq};
ghost use Rattle.table_members.specs.Forms.{counted, list, entries_after, any_text, number_within, may, need};
ghost use Rattle.mcu_tables.specs.Table.{need48_of, clock48_form, ip_name, ip};
ghost use Rattle.serde_json.specs.View.{view};
ghost use Rattle.table_members.specs.Places.{spelled, path_of, entry_path, Reads};

use refusal::Refusal;
use res_base::{Items, Text};
use res_model::{Ip, Need48};
use serde_json::Value;
use std::alloc::Global;
use table_members::{
    Flaw, Key, Place, Spot, check_object, counted_at, member_of, needed, number_at, text_at, texts,
};

#[tactic(auto, unfolding(crate::specs::Table::need48_of))]
fn need48_of(word: &str) -> Option<Need48>
    ensures { result ≡ need48_of word.now }
{
    if word == "none" {
        Some(Need48::Nothing)
    } else if word == "exact" {
        Some(Need48::Exact)
    } else if word == "most" {
        Some(Need48::Most)
    } else {
        None
    }
}

#[tactic(auto, unfolding(crate::specs::Table::clock48_form))]
fn clock48_at(at: Place, value: &Value) -> Result<Need48, Refusal<Flaw>>
    ensures { Reads (λ r. r) result (clock48_form (spelled at) (view value.now)) }
{
    let Some(word) = value.as_str() else {
        return Err(Refusal::Fault(Flaw::BadField(at)));
    };
    match need48_of(word) {
        Some(need) => Ok(need),
        None => Err(Refusal::Fault(Flaw::BadField(at))),
    }
}

fn has_ip(before: &[Ip], name: &str) -> bool
    ensures { result ≡ list_any (λ i. bytes_eq i.name name.now) before.now }
{
    before.iter().any(|ip| ip.name.as_str() == name)
}

#[tactic(auto, unfolding(crate::specs::Table::ip_name))]
fn name_at<'v>(before: &[Ip], at: Place, value: &'v Value) -> Result<&'v str, Refusal<Flaw>>
    ensures { Reads (λ s. s.now) result (ip_name before.now (spelled at) (view value.now)) }
{
    let name = text_at(at, value)?;
    if has_ip(before, name) {
        Err(Refusal::Fault(Flaw::Repeated(at)))
    } else {
        Ok(name)
    }
}

fn floor_at(at: Spot, found: Option<&Value>) -> Result<u64, Refusal<Flaw>>
    ensures { Reads (λ n. n) result (may (number_within 0 168000000) 0 (path_of at) (option_map (λ v. view v.now) found.entry)) }
{
    match found {
        Some(value) => number_at(0, 168000000, Place::Member(at), value),
        None => Ok(0),
    }
}

fn marks_at(alloc: Global, at: Spot, found: Option<&Value>) -> Result<Items<Text>, Refusal<Flaw>>
    ensures { Reads (λ v. v) result (may (list 0 16 any_text) [] (path_of at) (option_map (λ v. view v.now) found.entry)) }
{
    match found {
        Some(value) => texts(alloc, at, value, 16),
        None => Ok(Items::of(Vec::new(alloc))),
    }
}

#[tactic(auto, unfolding(crate::specs::Table::ip))]
fn ip_of(alloc: Global, before: &[Ip], i: usize, value: &Value) -> Result<Ip, Refusal<Flaw>>
    ensures { Reads (λ s. s) result (ip before.now (entry_path Key.Ips i) (view value.now)) }
{
    check_object(Place::Entry(Spot::Top(Key::Ips), i), value)?;
    let at = Spot::Inner(Key::Ips, i, Key::Name);
    let name = name_at(
        before,
        Place::Member(at),
        needed(member_of(value, Key::Name), at)?,
    )?;
    let at = Spot::Inner(Key::Ips, i, Key::Clock48);
    let clock48 = clock48_at(
        Place::Member(at),
        needed(member_of(value, Key::Clock48), at)?,
    )?;
    let floor = floor_at(
        Spot::Inner(Key::Ips, i, Key::Floor),
        member_of(value, Key::Floor),
    )?;
    let marks = marks_at(
        alloc,
        Spot::Inner(Key::Ips, i, Key::Marks),
        member_of(value, Key::Marks),
    )?;
    let name = Text::copy(alloc, name)?;
    Ok(Ip {
        name,
        clock48,
        floor,
        marks,
    })
}

fn each_ip(alloc: Global, values: &[Value]) -> Result<Vec<Ip>, Refusal<Flaw>>
    ensures { Reads (λ v. v.items) result (entries_after ip (path_of (Spot.Top Key.Ips)) [] (map view values.now)) }
{
    let mut found = Vec::new(alloc);
    for value in values {
        let ip = ip_of(alloc, found.as_slice(), found.len(), value)?;
        found.push(ip)?;
    }
    Ok(found)
}

/// The IPs of the table.
#[tactic(auto, unfolding(table_members::specs::Forms::list))]
pub fn ips_of(alloc: Global, value: &Value) -> Result<Items<Ip>, Refusal<Flaw>>
    ensures { Reads (λ v. v) result (list 0 64 ip (path_of (Spot.Top Key.Ips)) (view value.now)) }
{
    let values = counted_at(Spot::Top(Key::Ips), value, 0, 64)?;
    Ok(Items::of(each_ip(alloc, values)?))
}
