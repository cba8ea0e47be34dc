//! The flash ranges of a table.
ghost use Rattle.std.specs.Prelude.{◌≡◌, ◌≤◌, ◌<◌, ◌==◌, ◌-◌, List, [], ◌∷◌, Some, None, false, map, length, option_map, option_copied, option_and_then, slice_get, slice_index, IfOk, IfSome};
ghost use Rattle.table_members.specs.Forms.{counted, list, entries_after, number_within, above, flag, need};
ghost use Rattle.mcu_tables.specs.Table.{is_after, flash_from, flash_to, flash_range, scale, scales};
ghost use Rattle.serde_json.specs.View.{view};
ghost use Rattle.table_members.specs.Places.{spelled, path_of, entry_path, Reads};

use refusal::Refusal;
use res_base::Items;
use res_model::FlashRange;
use serde_json::Value;
use std::alloc::Global;
use table_members::{
    Flaw, Key, Place, Spot, ascending, check_object, counted_at, flag_at, member_of, needed,
    number_of,
};

fn is_after(before: &[FlashRange], n: u64) -> bool
    ensures { result ≡ is_after before.now n }
{
    match before.last() {
        Some(last) => last.to < n,
        None => true,
    }
}

#[tactic(auto, unfolding(crate::specs::Table::flash_from))]
fn from_at(before: &[FlashRange], at: Place, value: &Value) -> Result<u64, Refusal<Flaw>>
    ensures { Reads (λ n. n) result (flash_from before.now (spelled at) (view value.now)) }
{
    let Some(n) = number_of(value) else {
        return Err(Refusal::Fault(Flaw::BadField(at)));
    };
    if is_after(before, n) {
        Ok(n)
    } else {
        Err(Refusal::Fault(Flaw::BadField(at)))
    }
}

#[tactic(auto, unfolding(crate::specs::Table::flash_to))]
fn to_at(from: u64, at: Place, value: &Value) -> Result<u64, Refusal<Flaw>>
    ensures { Reads (λ n. n) result (flash_to from (spelled at) (view value.now)) }
{
    let Some(n) = number_of(value) else {
        return Err(Refusal::Fault(Flaw::BadField(at)));
    };
    if from <= n {
        Ok(n)
    } else {
        Err(Refusal::Fault(Flaw::BadField(at)))
    }
}

#[tactic(auto, unfolding(crate::specs::Table::flash_range))]
fn range_at(
    alloc: Global,
    before: &[FlashRange],
    i: usize,
    value: &Value,
) -> Result<FlashRange, Refusal<Flaw>>
    ensures { Reads (λ r. r) result (flash_range before.now (entry_path Key.Flash i) (view value.now)) }
{
    check_object(Place::Entry(Spot::Top(Key::Flash), i), value)?;
    let at = Spot::Inner(Key::Flash, i, Key::From);
    let from = from_at(
        before,
        Place::Member(at),
        needed(member_of(value, Key::From), at)?,
    )?;
    let at = Spot::Inner(Key::Flash, i, Key::To);
    let to = to_at(
        from,
        Place::Member(at),
        needed(member_of(value, Key::To), at)?,
    )?;
    let at = Spot::Inner(Key::Flash, i, Key::Prefetch);
    let prefetch = flag_at(
        Place::Member(at),
        needed(member_of(value, Key::Prefetch), at)?,
    )?;
    let at = Spot::Inner(Key::Flash, i, Key::Rows);
    let rows = ascending(alloc, at, needed(member_of(value, Key::Rows), at)?, 1, 8)?;
    Ok(FlashRange {
        from,
        to,
        prefetch,
        rows,
    })
}

fn each_range(alloc: Global, values: &[Value]) -> Result<Vec<FlashRange>, Refusal<Flaw>>
    ensures { Reads (λ v. v.items) result (entries_after flash_range (path_of (Spot.Top Key.Flash)) [] (map view values.now)) }
{
    let mut found = Vec::new(alloc);
    for value in values {
        let range = range_at(alloc, found.as_slice(), found.len(), value)?;
        found.push(range)?;
    }
    Ok(found)
}

/// The flash ranges of the table.
#[tactic(auto, unfolding(table_members::specs::Forms::list))]
pub fn flash_of(alloc: Global, value: &Value) -> Result<Items<FlashRange>, Refusal<Flaw>>
    ensures { Reads (λ v. v) result (list 0 16 flash_range (path_of (Spot.Top Key.Flash)) (view value.now)) }
{
    let values = counted_at(Spot::Top(Key::Flash), value, 0, 16)?;
    Ok(Items::of(each_range(alloc, values)?))
}
