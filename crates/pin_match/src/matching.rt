//! Who has what: an assignment in two tables.
ghost use Rattle.std.specs.Prelude.{◌≡◌, ℕ, ◌<◌, ◌≤◌, Some, IfSome, length};
ghost use Rattle.pin_match.specs.Sets.{fits_in};
ghost use Rattle.pin_match.specs.Pairs.{IsPaired, IsMatch, IsOffer, given_in, gave};

use crate::sets::{fits, next_fit};
use res_base::VarSet;

/// Who has what: the resource of each variable, and the variable of each resource.
#[derive(Drop)]
pub(crate) struct Match {
    pub given: [Option<u8>; 192],
    pub owner: [Option<u8>; 192],
}

impl Match {
    /// Nobody has anything.
    pub(crate) fn new() -> Match
        ensures { (n m : ℕ) → n ≤ 192 → m ≤ 192 → IsPaired n m result }
    {
        Match {
            given: [None; 192],
            owner: [None; 192],
        }
    }
}

/// Gives the resource to the variable, and returns what the variable had.
pub(crate) fn give(matching: &mut Match, variable: u8, resource: u8) -> Option<u8>
    requires variable { variable < 192 }
    requires resource { resource < 192 }
    requires held { (s : ℕ) → given_in matching.old variable ≡ Some s → s < 192 }
    ensures gave { matching.new ≡ gave matching.old variable resource }
    ensures had { result ≡ given_in matching.old variable }
{
    let had = matching.given[variable as usize];
    if let Some(let_go) = had {
        matching.owner[let_go as usize] = None;
    }
    matching.given[variable as usize] = Some(resource);
    matching.owner[resource as usize] = Some(variable);
    had
}

/// Drops what a variable has where it is no longer in its set.
pub(crate) fn keep(matching: &mut Match, sets: &[VarSet], resources: usize)
    requires paired { IsPaired (length sets.now) resources matching.old }
    ensures { IsMatch (length sets.now) resources (fits_in sets.now) matching.new }
{
    for variable in 0..sets.len() {
        let Some(resource) = matching.given[variable] else {
            continue;
        };
        if fits(sets, variable as u8, resource) {
            continue;
        }
        matching.given[variable] = None;
        matching.owner[resource as usize] = None;
    }
}

/// Gives each variable that has nothing the first resource of its set that nobody has.
///
/// Most variables are served by this, so that few searches are left.
pub(crate) fn take_free(matching: &mut Match, sets: &[VarSet], resources: usize)
    requires matched { IsMatch (length sets.now) resources (fits_in sets.now) matching.old }
    ensures { IsMatch (length sets.now) resources (fits_in sets.now) matching.new }
{
    for variable in 0..sets.len() {
        if matching.given[variable].is_some() {
            continue;
        }
        if let Some(resource) = free_fit(matching, sets, resources, variable as u8) {
            let _ = give(matching, variable as u8, resource);
        }
    }
}

/// The first resource in the set of a variable that nobody has.
fn free_fit(matching: &Match, sets: &[VarSet], resources: usize, variable: u8) -> Option<u8>
    requires matched { IsMatch (length sets.now) resources (fits_in sets.now) matching.now }
    requires variable { variable < length sets.now }
    ensures { IfSome result (IsOffer (length sets.now) resources (fits_in sets.now) matching.now variable) }
{
    let mut at = 0;
    while let Some(resource) = next_fit(sets, variable, at) {
        if resource as usize >= resources {
            return None;
        }
        if matching.owner[resource as usize].is_none() {
            return Some(resource);
        }
        at = resource + 1;
    }
    None
}
