//! What signals compete for in a box, and which of them are too many.
ghost use Rattle.pin_match.specs.Hall.{any_below};
ghost use Rattle.std.specs.Prelude.{[], ◌+◌, ◌&&◌, ◌≡◌, ◌==◌, ◌≤◌, ◌<◌, ℕ, length, slice_get, slice_index, slice_index_or, take, OnOk, IfOk};
ghost use Rattle.std.specs.List.{list_all, list_any};
ghost use Rattle.std.specs.Option.{option_map_or};
ghost use Rattle.res_base.specs.Lists.{Each};
ghost use Rattle.res_base.specs.VarSet.{in_set, IsWords};
ghost use Rattle.res_model.specs.Placement.{is_exti, number_of};
ghost use Rattle.box_split.specs.BoxIn.{runs_in};
ghost use Rattle.pin_match.specs.Sets.{fits_in};
ghost use Rattle.box_rules.specs.Contest.{competes, contestants, hall_in, members_of, resource_of, uses_in, wants};
ghost use Rattle.box_rules.specs.Inside.{AreInside};
ghost use Rattle.box_rules.specs.Judged.{HasResources};

use pin_match::Matcher;
use res_base::{Items, OutOfMemory, VarSet};
use res_model::{Mode, PinUse, TableParts, number_on_port};
use search_api::Class;
use std::alloc::Global;

/// The places of the signals of a class, with room for the set of resources of each.
#[derive(Drop)]
pub(crate) struct Contest {
    pub(crate) members: Vec<u16>,
    pub(crate) sets: Vec<VarSet>,
    pub(crate) matcher: Matcher,
}

fn is_exti(mode: Mode) -> bool
    ensures { result ≡ is_exti mode }
{
    matches!(mode, Mode::Exti)
}

fn are_lines(us: &[PinUse]) -> bool
    ensures { result ≡ list_all (λ u. is_exti u.mode) us.now }
{
    us.iter().all(|u| is_exti(u.mode))
}

/// Whether a signal of these values is of the class.
fn competes(class: Class, us: &[PinUse]) -> bool
    ensures { result ≡ competes class us.now }
{
    match class {
        Class::Pins => true,
        Class::Exti => are_lines(us),
    }
}

fn members_of(alloc: Global, class: Class, uses: &[Items<PinUse>]) -> Result<Vec<u16>, OutOfMemory>
    requires { length uses.now ≤ 170 }
    ensures { IfOk result (λ v. v.items ≡ members_of class 0 uses.now) }
{
    let mut members = Vec::with_capacity(alloc, uses.len())?;
    for s in 0..uses.len() {
        if competes(class, uses[s].as_slice()) {
            members.push(s as u16)?;
        }
    }
    Ok(members)
}

fn resource_of(t: &TableParts, class: Class, u: PinUse) -> u8
    ensures { result ≡ resource_of t.now class u }
{
    match class {
        Class::Pins => u.pin,
        Class::Exti => number_on_port(t, u.pin),
    }
}

/// The resources of some uses.
fn resources_of(t: &TableParts, class: Class, us: &[PinUse]) -> VarSet
    requires { Each (HasResources t.now) us.now }
    ensures { (r : ℕ) → in_set result r ≡ list_any (λ u. resource_of t.now class u == r) us.now }
{
    let mut found = VarSet::new();
    for u in us {
        found.put(resource_of(t, class, *u));
    }
    found
}

/// The values of the signal at a place, at its positions in a box.
fn uses_in<'u>(uses: &'u [Items<PinUse>], lo: &[u16], hi: &[u16], place: usize) -> &'u [PinUse]
    requires place { place < length uses.now }
    requires low { place < length lo.now }
    requires high { place < length hi.now }
    requires ordered { slice_index lo.now place ≤ slice_index hi.now place }
    requires inside { slice_index hi.now place < length (slice_index_or uses.now place []) }
    ensures { result.now ≡ uses_in (slice_index_or uses.now place []) record { low = slice_index lo.now place; high = slice_index hi.now place } }
{
    let low = usize::from(lo[place]);
    let high = usize::from(hi[place]);
    &uses[place].as_slice()[low..high + 1]
}

/// The resources that the signal at a place can have in a box.
fn wanted(
    t: &TableParts,
    class: Class,
    uses: &[Items<PinUse>],
    lo: &[u16],
    hi: &[u16],
    place: usize,
) -> VarSet
    requires place { place < length uses.now }
    requires low { length uses.now ≤ length lo.now }
    requires high { length uses.now ≤ length hi.now }
    requires inside { AreInside uses.now (runs_in (length uses.now) lo.now hi.now) }
    requires resources { Each (Each (HasResources t.now)) uses.now }
    ensures { (r : ℕ) → in_set result r ≡ list_any (λ u. resource_of t.now class u == r) (uses_in (slice_index_or uses.now place []) record { low = slice_index lo.now place; high = slice_index hi.now place }) }
{
    resources_of(t, class, uses_in(uses, lo, hi, place))
}

/// Makes each set that of its member.
fn fill(
    sets: &mut [VarSet],
    members: &[u16],
    t: &TableParts,
    class: Class,
    uses: &[Items<PinUse>],
    lo: &[u16],
    hi: &[u16],
)
    requires sets { length sets.old ≡ length members.now }
    requires members { members.now ≡ members_of class 0 uses.now }
    requires low { length uses.now ≤ length lo.now }
    requires high { length uses.now ≤ length hi.now }
    requires inside { AreInside uses.now (runs_in (length uses.now) lo.now hi.now) }
    requires resources { Each (Each (HasResources t.now)) uses.now }
    ensures { (v : ℕ) → fits_in sets.new ≡ wants t.now class (contestants class v uses.now (runs_in (length uses.now) lo.now hi.now)) }
{
    for i in 0..members.len() {
        sets[i] = wanted(t, class, uses, lo, hi, members[i] as usize);
    }
}

/// The variables of the members at some places.
fn named(members: &[u16], first: u16, s: &VarSet) -> VarSet
    requires few { length members.now ≤ 170 }
    requires small { (i : ℕ) → i < length members.now → first + slice_index members.now i < 192 }
    ensures set { (v : ℕ) → in_set result v ≡ any_below (length members.now) (λ i. in_set s.now i && (first + slice_index members.now i == v)) }
    ensures words { IsWords result }
{
    gathered(members, first, s)
}

/// The variables of the members at some places, put together.
fn gathered(members: &[u16], first: u16, s: &VarSet) -> VarSet
    requires few { length members.now ≤ 170 }
    requires small { (i : ℕ) → i < length members.now → first + slice_index members.now i < 192 }
    ensures { (v : ℕ) → in_set result v ≡ any_below (length members.now) (λ i. in_set s.now i && (first + slice_index members.now i == v)) }
{
    let mut found = VarSet::new();
    for i in 0..members.len() {
        if s.has(i as u8) {
            found.put((first + members[i]) as u8);
        }
    }
    found
}

impl Contest {
    ghost use Rattle.box_judge.specs.Room.{IsContest};

    /// Room for the signals of a class.
    pub(crate) fn new(
        alloc: Global,
        class: Class,
        uses: &[Items<PinUse>],
    ) -> Result<Contest, OutOfMemory>
        requires { length uses.now ≤ 170 }
        ensures { IfOk result (IsContest class uses.now) }
    {
        let members = members_of(alloc, class, uses)?;
        let sets = vec![in alloc; VarSet::new(); members.len()]?;
        let matcher = Matcher::new(members.len(), 192)?;
        Ok(Contest {
            members,
            sets,
            matcher,
        })
    }

    /// The variables of the class that are more than their resources in a box; `first` is that of the first signal.
    pub(crate) fn hall(
        &mut self,
        t: &TableParts,
        class: Class,
        uses: &[Items<PinUse>],
        first: u16,
        lo: &[u16],
        hi: &[u16],
    ) -> Option<VarSet>
        requires ready { IsContest class uses.now self.old }
        requires few { first + length uses.now ≤ 192 }
        requires low { length uses.now ≤ length lo.now }
        requires high { length uses.now ≤ length hi.now }
        requires inside { AreInside uses.now (runs_in (length uses.now) lo.now hi.now) }
        requires resources { Each (Each (HasResources t.now)) uses.now }
        ensures ready { IsContest class uses.now self.new }
        ensures hall { result ≡ hall_in t.now class (contestants class first uses.now (runs_in (length uses.now) lo.now hi.now)) }
    {
        let members = self.members.as_slice();
        fill(self.sets.as_mut_slice(), members, t, class, uses, lo, hi);
        match self.matcher.hall(self.sets.as_slice()) {
            Some(places) => Some(named(members, first, &places)),
            None => None,
        }
    }
}
