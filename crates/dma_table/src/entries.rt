//! The entries of the list of requests.
ghost use Rattle.std.specs.Prelude.{◌≡◌, ◌==◌, [], map, option_map};
ghost use Rattle.std.specs.List.{list_any};
ghost use Rattle.std.specs.Str.{bytes_eq};
ghost use Rattle.table_members.specs.Places.{Reads, entry_path, path_of, spelled};
ghost use Rattle.table_members.specs.Forms.{entries_after, list};
ghost use Rattle.serde_json.specs.View.{view};
ghost use Rattle.dma_table.specs.Reading.{is_same_row, new_row, request, request_name, row, three};

use dma_model::{DmaRequest, DmaRow};
use refusal::Refusal;
use res_base::{Items, Text};
use serde_json::Value;
use std::alloc::Global;
use table_members::{
    Flaw, Key, Place, Spot, check_object, counted_at, member_of, needed, number_at, text_at,
};

/// The entries of a list of three.
#[tactic(auto, unfolding(crate::specs::Reading::three))]
fn three_of(value: &Value) -> Option<(&Value, &Value, &Value)>
    ensures { option_map (λ p. (view p.0.now, view p.1.now, view p.2.now)) result ≡ three (view value.now) }
{
    let first = value.get(0usize)?;
    let second = value.get(1usize)?;
    let third = value.get(2usize)?;
    match value.get(3usize) {
        Some(_) => None,
        None => Some((first, second, third)),
    }
}

fn is_same_row(a: DmaRow, b: DmaRow) -> bool
    ensures { result ≡ is_same_row a b }
{
    a.controller == b.controller && (a.stream == b.stream && a.channel == b.channel)
}

fn has_row(before: &[DmaRow], r: DmaRow) -> bool
    ensures { result ≡ list_any (is_same_row r) before.now }
{
    before.iter().any(|other| is_same_row(r, *other))
}

/// The row, where no row before equals it.
#[tactic(auto, unfolding(crate::specs::Reading::new_row))]
fn new_row(before: &[DmaRow], at: Place, r: DmaRow) -> Result<DmaRow, Refusal<Flaw>>
    ensures { Reads (λ r. r) result (new_row before.now (spelled at) r) }
{
    if has_row(before, r) {
        Err(Refusal::Fault(Flaw::Repeated(at)))
    } else {
        Ok(r)
    }
}

/// A row from a list of controller, stream and channel. Each fault is at the row.
#[tactic(auto, unfolding(crate::specs::Reading::row))]
fn row_at(before: &[DmaRow], at: Place, value: &Value) -> Result<DmaRow, Refusal<Flaw>>
    ensures { Reads (λ r. r) result (row before.now (spelled at) (view value.now)) }
{
    let Some((controller, stream, channel)) = three_of(value) else {
        return Err(Refusal::Fault(Flaw::BadField(at)));
    };
    let controller = number_at(1, 2, at, controller)?;
    let stream = number_at(0, 7, at, stream)?;
    let channel = number_at(0, 7, at, channel)?;
    new_row(
        before,
        at,
        DmaRow {
            controller: controller as u8,
            stream: stream as u8,
            channel: channel as u8,
        },
    )
}

fn each_row(alloc: Global, at: Spot, values: &[Value]) -> Result<Vec<DmaRow>, Refusal<Flaw>>
    ensures { Reads (λ v. v.items) result (entries_after row (path_of at) [] (map view values.now)) }
{
    let mut found = Vec::new(alloc);
    for value in values {
        let row = row_at(found.as_slice(), Place::Entry(at, found.len()), value)?;
        found.push(row)?;
    }
    Ok(found)
}

/// The rows of a request.
#[tactic(auto, unfolding(table_members::specs::Forms::list))]
fn rows_of(alloc: Global, at: Spot, value: &Value) -> Result<Items<DmaRow>, Refusal<Flaw>>
    ensures { Reads (λ v. v) result (list 1 8 row (path_of at) (view value.now)) }
{
    let values = counted_at(at, value, 1, 8)?;
    Ok(Items::of(each_row(alloc, at, values)?))
}

fn has_name(before: &[DmaRequest], name: &str) -> bool
    ensures { result ≡ list_any (λ r. bytes_eq r.name name.now) before.now }
{
    before.iter().any(|request| request.name.as_str() == name)
}

/// A name that no request before has.
#[tactic(auto, unfolding(crate::specs::Reading::request_name))]
fn name_at<'v>(before: &[DmaRequest], at: Place, value: &'v Value) -> Result<&'v str, Refusal<Flaw>>
    ensures { Reads (λ s. s.now) result (request_name before.now (spelled at) (view value.now)) }
{
    let name = text_at(at, value)?;
    if has_name(before, name) {
        Err(Refusal::Fault(Flaw::Repeated(at)))
    } else {
        Ok(name)
    }
}

/// The request at place i.
#[tactic(auto, unfolding(crate::specs::Reading::request))]
fn request_at(
    alloc: Global,
    before: &[DmaRequest],
    i: usize,
    value: &Value,
) -> Result<DmaRequest, Refusal<Flaw>>
    ensures { Reads (λ r. r) result (request before.now (entry_path Key.Dma i) (view value.now)) }
{
    check_object(Place::Entry(Spot::Top(Key::Dma), i), value)?;
    let at = Spot::Inner(Key::Dma, i, Key::Name);
    let name = name_at(
        before,
        Place::Member(at),
        needed(member_of(value, Key::Name), at)?,
    )?;
    let at = Spot::Inner(Key::Dma, i, Key::At);
    let rows = rows_of(alloc, at, needed(member_of(value, Key::At), at)?)?;
    let name = Text::copy(alloc, name)?;
    Ok(DmaRequest { name, at: rows })
}

fn each_request(alloc: Global, values: &[Value]) -> Result<Vec<DmaRequest>, Refusal<Flaw>>
    ensures { Reads (λ v. v.items) result (entries_after request (path_of (Spot.Top Key.Dma)) [] (map view values.now)) }
{
    let mut found = Vec::new(alloc);
    for value in values {
        let request = request_at(alloc, found.as_slice(), found.len(), value)?;
        found.push(request)?;
    }
    Ok(found)
}

/// The requests of the list.
#[tactic(auto, unfolding(table_members::specs::Forms::list))]
pub(crate) fn requests_of(alloc: Global, value: &Value) -> Result<Items<DmaRequest>, Refusal<Flaw>>
    ensures { Reads (λ v. v) result (list 0 200 request (path_of (Spot.Top Key.Dma)) (view value.now)) }
{
    let values = counted_at(Spot::Top(Key::Dma), value, 0, 200)?;
    Ok(Items::of(each_request(alloc, values)?))
}
