//! An index of a table's signals by their names: places that are sorted once.
ghost use Rattle.std.specs.Prelude.{◌≡◌, ◌≢◌, IfOk, find, length, slice_get};
ghost use Rattle.std.specs.Cmp.Lexicographic.{slice_cmp};
ghost use Rattle.std.specs.Option.{option_copied};
ghost use Rattle.std.specs.Ordering.{nat_cmp};
ghost use Rattle.std.specs.Str.{bytes_eq};
ghost use Rattle.res_base.specs.Lists.{Pairwise};
ghost use Rattle.res_model.specs.NameOrder.{name_at, name_cmp, AreFirst, IsNameOrder};

use crate::table::TableSignal;
use res_base::{Items, OutOfMemory};
use std::alloc::{AllocError, Global};
use std::cmp::Ordering;

/// The name of the signal at a place, and an empty one past the end.
fn name_at(signals: &[TableSignal], place: usize) -> &[u8]
    ensures { result.now ≡ name_at signals.now place }
{
    match signals.get(place) {
        Some(signal) => signal.name.as_str().as_bytes(),
        None => &[],
    }
}

#[tactic(auto, unfolding(crate::specs::NameOrder::name_cmp))]
fn order(signals: &[TableSignal], a: usize, b: usize) -> Ordering
    ensures { result ≡ name_cmp signals.now a b }
{
    name_at(signals, a).cmp(name_at(signals, b))
}

/// The places below a number.
fn places_below(alloc: Global, count: usize) -> Result<Vec<usize>, AllocError>
    ensures { IfOk result (λ places. AreFirst places.items count) }
{
    let mut places = Vec::with_capacity(alloc, count)?;
    for place in 0..count {
        places.push(place)?;
    }
    Ok(places)
}

/// The index of these signals.
pub(crate) fn name_order(
    alloc: Global,
    signals: &[TableSignal],
) -> Result<Items<usize>, OutOfMemory>
    ensures { IfOk result (λ places. IsNameOrder places signals.now) }
{
    let mut places = places_below(alloc, signals.len())?;
    places.sort_unstable_by(|a, b| order(signals, *a, *b));
    Ok(Items::of(places))
}

fn order_to(signals: &[TableSignal], place: usize, name: &[u8]) -> Ordering
    ensures { result ≡ slice_cmp nat_cmp (name_at signals.now place) name.now }
{
    name_at(signals, place).cmp(name)
}

fn signal_at(signals: &[TableSignal], place: usize) -> Option<&TableSignal>
    ensures { option_copied result ≡ slice_get signals.now place }
{
    signals.get(place)
}

/// The signal of this name.
pub(crate) fn signal_in<'t>(
    signals: &'t [TableSignal],
    places: &[usize],
    name: &[u8],
) -> Option<&'t TableSignal>
    requires order { IsNameOrder places.now signals.now }
    requires differ { Pairwise (λ s u. s.name ≢ u.name) signals.now }
    ensures { option_copied result ≡ find (λ s. bytes_eq s.name name.now) signals.now }
{
    match places.binary_search_by(|place| order_to(signals, *place, name)) {
        Ok(at) => signal_at(signals, places[at]),
        Err(_) => None,
    }
}
