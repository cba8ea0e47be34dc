//! Lists of texts.
ghost use Rattle.std.specs.Prelude.{◌≡◌, ◌≤◌, ◌<◌, ◌==◌, ◌-◌, List, [], ◌∷◌, Some, map, length, option_map, option_copied, slice_get, IfOk, IfSome};
ghost use Rattle.std.specs.List.{list_any};
ghost use Rattle.std.specs.Str.{bytes_eq};
ghost use Rattle.table_members.specs.Forms.{counted, list, entries_after, any_text, distinct_text, is_above, above, next_among, some_among, one_among};
ghost use Rattle.serde_json.specs.View.{view};
ghost use Rattle.table_members.specs.Places.{spelled, path_of, Reads};

use crate::forms::{among_at, text_at};
use crate::json::{entries_of, number_of};
use crate::place::{Flaw, Place, Spot};
use refusal::Refusal;
use res_base::{Items, Text};
use serde_json::Value;
use std::alloc::Global;

/// The entries of a list of so many.
#[tactic(auto, unfolding(crate::specs::Forms::counted))]
pub fn counted_at(
    at: Spot,
    value: &Value,
    least: usize,
    most: usize,
) -> Result<&Vec<Value>, Refusal<Flaw>>
    ensures reads { Reads (λ v. map view v.now.items) result (counted least most (path_of at) (view value.now)) }
    ensures long { IfOk result (λ v. least ≤ length v.now.items) }
    ensures short { IfOk result (λ v. length v.now.items ≤ most) }
{
    let Some(values) = entries_of(value) else {
        return Err(Refusal::Fault(Flaw::BadField(Place::Member(at))));
    };
    if least <= values.len() && values.len() <= most {
        Ok(values)
    } else {
        Err(Refusal::Fault(Flaw::BadField(Place::Member(at))))
    }
}

fn has_text(before: &[Text], name: &str) -> bool
    ensures { result ≡ list_any (λ x. bytes_eq x name.now) before.now }
{
    before.iter().any(|text| text.as_str() == name)
}

#[tactic(auto, unfolding(crate::specs::Forms::distinct_text))]
fn distinct_at<'v>(before: &[Text], at: Place, value: &'v Value) -> Result<&'v str, Refusal<Flaw>>
    ensures { Reads (λ s. s.now) result (distinct_text before.now (spelled at) (view value.now)) }
{
    let name = text_at(at, value)?;
    if has_text(before, name) {
        Err(Refusal::Fault(Flaw::Repeated(at)))
    } else {
        Ok(name)
    }
}

fn each_distinct(alloc: Global, at: Spot, values: &[Value]) -> Result<Vec<Text>, Refusal<Flaw>>
    ensures { Reads (λ v. v.items) result (entries_after distinct_text (path_of at) [] (map view values.now)) }
{
    let mut found = Vec::new(alloc);
    for value in values {
        let name = distinct_at(found.as_slice(), Place::Entry(at, found.len()), value)?;
        found.push(Text::copy(alloc, name)?)?;
    }
    Ok(found)
}

/// A list of distinct texts.
#[tactic(auto, unfolding(crate::specs::Forms::list))]
pub fn distinct_texts(
    alloc: Global,
    at: Spot,
    value: &Value,
    least: usize,
    most: usize,
) -> Result<Items<Text>, Refusal<Flaw>>
    ensures { Reads (λ v. v) result (list least most distinct_text (path_of at) (view value.now)) }
{
    let values = counted_at(at, value, least, most)?;
    Ok(Items::of(each_distinct(alloc, at, values)?))
}

#[tactic(auto, unfolding(crate::specs::Forms::any_text))]
fn each_text(alloc: Global, at: Spot, values: &[Value]) -> Result<Vec<Text>, Refusal<Flaw>>
    ensures { Reads (λ v. v.items) result (entries_after any_text (path_of at) [] (map view values.now)) }
{
    let mut found = Vec::new(alloc);
    for value in values {
        let text = text_at(Place::Entry(at, found.len()), value)?;
        found.push(Text::copy(alloc, text)?)?;
    }
    Ok(found)
}

/// A list of texts.
#[tactic(auto, unfolding(crate::specs::Forms::list))]
pub fn texts(
    alloc: Global,
    at: Spot,
    value: &Value,
    most: usize,
) -> Result<Items<Text>, Refusal<Flaw>>
    ensures { Reads (λ v. v) result (list 0 most any_text (path_of at) (view value.now)) }
{
    let values = counted_at(at, value, 0, most)?;
    Ok(Items::of(each_text(alloc, at, values)?))
}

fn is_above(before: &[u64], n: u64) -> bool
    ensures { result ≡ is_above before.now n }
{
    match before.last() {
        Some(last) => *last < n,
        None => true,
    }
}

#[tactic(auto, unfolding(crate::specs::Forms::above))]
fn above_at(before: &[u64], at: Place, value: &Value) -> Result<u64, Refusal<Flaw>>
    ensures { Reads (λ n. n) result (above before.now (spelled at) (view value.now)) }
{
    let Some(n) = number_of(value) else {
        return Err(Refusal::Fault(Flaw::BadField(at)));
    };
    if is_above(before, n) {
        Ok(n)
    } else {
        Err(Refusal::Fault(Flaw::BadField(at)))
    }
}

fn each_above(alloc: Global, at: Spot, values: &[Value]) -> Result<Vec<u64>, Refusal<Flaw>>
    ensures { Reads (λ v. v.items) result (entries_after above (path_of at) [] (map view values.now)) }
{
    let mut found = Vec::new(alloc);
    for value in values {
        let n = above_at(found.as_slice(), Place::Entry(at, found.len()), value)?;
        found.push(n)?;
    }
    Ok(found)
}

/// An ascending list of numbers.
#[tactic(auto, unfolding(crate::specs::Forms::list))]
pub fn ascending(
    alloc: Global,
    at: Spot,
    value: &Value,
    least: usize,
    most: usize,
) -> Result<Items<u64>, Refusal<Flaw>>
    ensures { Reads (λ v. v) result (list least most above (path_of at) (view value.now)) }
{
    let values = counted_at(at, value, least, most)?;
    Ok(Items::of(each_above(alloc, at, values)?))
}

fn is_next(before: &[u16], n: u16) -> bool
    ensures { result ≡ is_above before.now n }
{
    match before.last() {
        Some(last) => *last < n,
        None => true,
    }
}

#[tactic(auto, unfolding(crate::specs::Forms::next_among))]
fn next_at(these: &[u16], before: &[u16], at: Place, value: &Value) -> Result<u16, Refusal<Flaw>>
    ensures { Reads (λ n. n) result (next_among these.now before.now (spelled at) (view value.now)) }
{
    let n = among_at(these, at, value)?;
    if is_next(before, n) {
        Ok(n)
    } else {
        Err(Refusal::Fault(Flaw::BadField(at)))
    }
}

fn each_among(
    alloc: Global,
    these: &[u16],
    at: Spot,
    values: &[Value],
) -> Result<Vec<u16>, Refusal<Flaw>>
    ensures { Reads (λ v. v.items) result (entries_after (next_among these.now) (path_of at) [] (map view values.now)) }
{
    let mut found = Vec::new(alloc);
    for value in values {
        let n = next_at(
            these,
            found.as_slice(),
            Place::Entry(at, found.len()),
            value,
        )?;
        found.push(n)?;
    }
    Ok(found)
}

/// An ascending list within these numbers, with at least one.
#[tactic(auto, unfolding(crate::specs::Forms::some_among))]
pub fn some_among(
    alloc: Global,
    these: &[u16],
    at: Spot,
    value: &Value,
) -> Result<Items<u16>, Refusal<Flaw>>
    ensures { Reads (λ v. v) result (some_among these.now (path_of at) (view value.now)) }
{
    let Some(values) = entries_of(value) else {
        return Err(Refusal::Fault(Flaw::BadField(Place::Member(at))));
    };
    let found = each_among(alloc, these, at, values)?;
    if found.len() > 0 {
        Ok(Items::of(found))
    } else {
        Err(Refusal::Fault(Flaw::BadField(Place::Member(at))))
    }
}

fn has_one(numbers: &[u16]) -> bool
    ensures { result ≡ list_any (λ n. n == 1) numbers.now }
{
    numbers.iter().any(|n| *n == 1)
}

/// An ascending list within these numbers, with 1 in it.
#[tactic(auto, unfolding(crate::specs::Forms::one_among))]
pub fn one_among(
    alloc: Global,
    these: &[u16],
    at: Spot,
    value: &Value,
) -> Result<Items<u16>, Refusal<Flaw>>
    ensures { Reads (λ v. v) result (one_among these.now (path_of at) (view value.now)) }
{
    let Some(values) = entries_of(value) else {
        return Err(Refusal::Fault(Flaw::BadField(Place::Member(at))));
    };
    let found = each_among(alloc, these, at, values)?;
    if has_one(found.as_slice()) {
        Ok(Items::of(found))
    } else {
        Err(Refusal::Fault(Flaw::BadField(Place::Member(at))))
    }
}
