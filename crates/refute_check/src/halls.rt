//! Whether variables are more than the resources that they have together.
ghost use Rattle.std.specs.Prelude.{◌≡◌, ◌≤◌, ◌<◌, ◌+◌, ◌&&◌, ◌||◌, ℕ, List, [], length, drop, slice_index, slice_index_or};
ghost use Rattle.std.specs.List.{list_all};
ghost use Rattle.res_base.specs.Lists.{Each};
ghost use Rattle.res_base.specs.VarSet.{in_set};
ghost use Rattle.box_split.specs.Boxes.{IsBox};
ghost use Rattle.box_split.specs.BoxIn.{box_in, runs_in};
ghost use Rattle.res_model.specs.Placement.{is_exti, number_of};
ghost use Rattle.box_rules.specs.Contest.{competes, contestants, resource_of, hall_refutes, uses_in};
ghost use Rattle.box_rules.specs.Inside.{AreInside};
ghost use Rattle.box_rules.specs.Judged.{contest, HasResources, IsWhole};
ghost use Rattle.refute_check.specs.Counting.{are_of_class, has_resource, is_of_class, is_used};

use box_split::BoxBuf;
use problem::Problem;
use res_base::{Items, VarSet};
use res_model::{Mode, PinUse, TableParts};
use search_api::Class;

/// Whether a set of variables refutes a box: all are signals of the class, and they are more than their resources.
pub(crate) fn hall_refutes(p: &Problem, class: Class, vars: &VarSet, b: &BoxBuf) -> bool
    requires whole { IsWhole p.now }
    requires is_box { IsBox p.now.shape (box_in p.now.shape b.now) }
    ensures { result ≡ hall_refutes p.now.tables class (contest p.now class (box_in p.now.shape b.now)) vars.now }
{
    let parts = p.parts();
    let t = parts.tables.parts();
    let uses = parts.uses.as_slice();
    let first = parts.first as usize;
    let lo = ends_from(&b.lo, first);
    let hi = ends_from(&b.hi, first);
    are_too_many(t, class, vars, first, uses, lo, hi)
}

/// The ends of the runs of a variable and those after it.
fn ends_from(ends: &[u16; 170], first: usize) -> &[u16]
    requires { first ≤ 170 }
    ensures { result.now ≡ drop first ends.now }
{
    &ends[first..]
}

/// Whether variables are all signals of the class, and more than the resources that they have together.
fn are_too_many(
    t: &TableParts,
    class: Class,
    vars: &VarSet,
    first: usize,
    uses: &[Items<PinUse>],
    lo: &[u16],
    hi: &[u16],
) -> bool
    requires few { first + length uses.now ≤ 192 }
    requires low { length uses.now ≤ length lo.now }
    requires high { length uses.now ≤ length hi.now }
    requires inside { AreInside uses.now (runs_in (length uses.now) lo.now hi.now) }
    requires resources { Each (Each (HasResources t.now)) uses.now }
    ensures { result ≡ hall_refutes t.now class (contestants class first uses.now (runs_in (length uses.now) lo.now hi.now)) vars.now }
{
    if !are_of_class(class, first, uses, vars) {
        return false;
    }
    let found = resources_of(t, class, vars, first, uses, lo, hi);
    found.len() < vars.len()
}

fn is_exti(mode: Mode) -> bool
    ensures { result ≡ is_exti mode }
{
    matches!(mode, Mode::Exti)
}

fn are_lines(us: &[PinUse]) -> bool
    ensures { result ≡ list_all (λ u. is_exti u.mode) us.now }
{
    us.iter().all(|u| is_exti(u.mode))
}

/// Whether a signal with these values is of the class.
fn competes(class: Class, us: &[PinUse]) -> bool
    ensures { result ≡ competes class us.now }
{
    match class {
        Class::Pins => true,
        Class::Exti => are_lines(us),
    }
}

/// The values of the signal at a place.
fn uses_of(uses: &[Items<PinUse>], place: usize) -> &[PinUse]
    requires { place < length uses.now }
    ensures { result.now ≡ slice_index_or uses.now place [] }
{
    uses[place].as_slice()
}

/// Whether a variable is that of a signal of the class.
fn is_of_class(class: Class, first: usize, uses: &[Items<PinUse>], v: usize) -> bool
    ensures { result ≡ is_of_class class first uses.now v }
{
    if v < first || v - first >= uses.len() {
        return false;
    }
    competes(class, uses_of(uses, v - first))
}

/// Whether all members are variables of signals of the class.
fn are_of_class(class: Class, first: usize, uses: &[Items<PinUse>], vars: &VarSet) -> bool
    ensures { result ≡ are_of_class class first uses.now vars.now }
{
    for v in 0..192u8 {
        if vars.has(v) && !is_of_class(class, first, uses, v as usize) {
            return false;
        }
    }
    true
}

fn number_of(t: &TableParts, pin: u8) -> u8
    ensures { result ≡ number_of t.now pin }
{
    match t.pins.as_slice().get(pin as usize) {
        Some(pin) => pin.number,
        None => 0,
    }
}

fn resource_of(t: &TableParts, class: Class, u: PinUse) -> u8
    ensures { result ≡ resource_of t.now class u }
{
    match class {
        Class::Pins => u.pin,
        Class::Exti => number_of(t, u.pin),
    }
}

/// Adds the resources of some uses.
fn add_resources(found: &mut VarSet, t: &TableParts, class: Class, us: &[PinUse])
    requires { Each (HasResources t.now) us.now }
    ensures { (r : ℕ) → in_set found.new r ≡ (in_set found.old r || has_resource t.now class us.now r) }
{
    for u in us {
        found.put(resource_of(t, class, *u));
    }
}

/// The values of a signal at its positions in a box.
fn uses_in(us: &[PinUse], low: u16, high: u16) -> &[PinUse]
    requires ordered { low ≤ high }
    requires inside { high < length us.now }
    ensures { result.now ≡ uses_in us.now record { low = low; high = high } }
{
    &us[low as usize..high as usize + 1]
}

/// Whether a signal with these values is of the class, and its variable is in a set.
fn is_in(class: Class, us: &[PinUse], vars: &VarSet, v: u8) -> bool
    requires { v < 192 }
    ensures { result ≡ (competes class us.now && in_set vars.now v) }
{
    competes(class, us) && vars.has(v)
}

/// The resources, in a box, of those signals of the class whose variables are in a set.
fn resources_of(
    t: &TableParts,
    class: Class,
    vars: &VarSet,
    first: usize,
    uses: &[Items<PinUse>],
    lo: &[u16],
    hi: &[u16],
) -> VarSet
    requires few { first + length uses.now ≤ 192 }
    requires low { length uses.now ≤ length lo.now }
    requires high { length uses.now ≤ length hi.now }
    requires inside { AreInside uses.now (runs_in (length uses.now) lo.now hi.now) }
    requires resources { Each (Each (HasResources t.now)) uses.now }
    ensures { (r : ℕ) → in_set result r ≡ is_used t.now class vars.now first uses.now (runs_in (length uses.now) lo.now hi.now) r }
{
    let mut found = VarSet::new();
    for s in 0..uses.len() {
        let us = uses_of(uses, s);
        if is_in(class, us, vars, (first + s) as u8) {
            add_resources(&mut found, t, class, uses_in(us, lo[s], hi[s]));
        }
    }
    found
}
