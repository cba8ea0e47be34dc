//! The power steps of a table with their greatest HCLK.
ghost use Rattle.std.specs.Prelude.{◌≡◌, ◌≤◌, ◌<◌, ℕ, List, [], ◌∷◌, map, length, slice_index};
ghost use Rattle.res_model.specs.ClockValues.{widest_hclk};
ghost use Rattle.table_members.specs.Forms.{counted, list, entries_after, number_within, need};
ghost use Rattle.mcu_tables.specs.Table.{scale, scales};
ghost use Rattle.serde_json.specs.View.{view};
ghost use Rattle.table_members.specs.Places.{spelled, path_of, entry_path, Reads};

use refusal::Refusal;
use res_base::Items;
use res_model::{Scale, has_over};
use serde_json::Value;
use std::alloc::Global;
use table_members::{
    Flaw, Key, Place, Spot, check_object, counted_at, member_of, needed, number_at,
};

/// The greatest HCLK in hertz that a table may state at a power step.
fn widest_hclk(step: u16) -> u64
    ensures { result ≡ widest_hclk step }
{
    if has_over(step) { 180000000 } else { 168000000 }
}

/// The power step that is due after those before it.
#[tactic(auto, unfolding(crate::specs::Table::scale))]
fn scale_at(vos: &[u16], before: &[Scale], value: &Value) -> Result<Scale, Refusal<Flaw>>
    requires due { length before.now < length vos.now }
    requires small { slice_index vos.now (length before.now) < 256 }
    ensures { Reads (λ s. s) result (scale vos.now before.now (entry_path Key.Scales (length before.now)) (view value.now)) }
{
    let i = before.len();
    check_object(Place::Entry(Spot::Top(Key::Scales), i), value)?;
    let due = u64::from(vos[i]);
    let at = Spot::Inner(Key::Scales, i, Key::Vos);
    let number = number_at(
        due,
        due,
        Place::Member(at),
        needed(member_of(value, Key::Vos), at)?,
    )?;
    let at = Spot::Inner(Key::Scales, i, Key::Max);
    let max = number_at(
        1,
        widest_hclk(number as u16),
        Place::Member(at),
        needed(member_of(value, Key::Max), at)?,
    )?;
    Ok(Scale {
        vos: number as u8,
        max,
    })
}

fn each_scale(alloc: Global, vos: &[u16], values: &[Value]) -> Result<Vec<Scale>, Refusal<Flaw>>
    requires same { length values.now ≡ length vos.now }
    requires small { (k : ℕ) → k < length vos.now → slice_index vos.now k < 256 }
    ensures { Reads (λ v. v.items) result (entries_after (scale vos.now) (path_of (Spot.Top Key.Scales)) [] (map view values.now)) }
{
    let mut found = Vec::new(alloc);
    for value in values {
        let scale = scale_at(vos, found.as_slice(), value)?;
        found.push(scale)?;
    }
    Ok(found)
}

/// The power steps of the table with their greatest HCLK, one for each of the clock's.
#[tactic(auto, unfolding(table_members::specs::Forms::list))]
pub fn scales_of(alloc: Global, vos: &[u16], value: &Value) -> Result<Items<Scale>, Refusal<Flaw>>
    requires small { (k : ℕ) → k < length vos.now → slice_index vos.now k < 256 }
    ensures { Reads (λ v. v) result (scales vos.now (path_of (Spot.Top Key.Scales)) (view value.now)) }
{
    let values = counted_at(Spot::Top(Key::Scales), value, vos.len(), vos.len())?;
    Ok(Items::of(each_scale(alloc, vos, values)?))
}
