//! The search along alternating steps for a resource that nobody has.
ghost use Rattle.std.specs.Prelude.{◌≡◌, ◌+◌, ◌<◌, ◌≤◌, true, Some, None, Option, MatchOption, length};
ghost use Rattle.pin_match.specs.Sets.{fits_in};
ghost use Rattle.pin_match.specs.Walks.{IsWalk, Scanned, Started, reached_in};
ghost use Rattle.pin_match.specs.Pairs.{IsMatch, Met, IsClosed, given_in};

use crate::matching::Match;
use crate::sets::next_fit;
use crate::walk::{Walk, reach};
use res_base::VarSet;

/// Scans the resources of the variable at the queue's head, and gives one that nobody has, if it meets one.
pub(crate) fn scan(
    matching: &Match,
    sets: &[VarSet],
    resources: usize,
    walk: &mut Walk,
    variable: u8,
) -> Option<u8>
    requires matched { IsMatch (length sets.now) resources (fits_in sets.now) matching.now }
    requires walk { IsWalk (length sets.now) (fits_in sets.now) (given_in matching.now) walk.old }
    requires variable { variable < length sets.now }
    requires reached { reached_in walk.old variable ≡ true }
    ensures walk { IsWalk (length sets.now) (fits_in sets.now) (given_in matching.now) walk.new }
    ensures scanned { MatchOption result (Scanned (length sets.now) (fits_in sets.now) (given_in matching.now) walk.old walk.new variable resources) (λ r. Met (length sets.now) resources (fits_in sets.now) matching.now walk.new variable r) }
{
    let mut at = 0;
    while let Some(resource) = next_fit(sets, variable, at) {
        if resource as usize >= resources {
            return None;
        }
        let Some(owner) = matching.owner[resource as usize] else {
            return Some(resource);
        };
        at = resource + 1;
        if walk.reached[owner as usize] {
            continue;
        }
        reach(walk, owner, variable);
    }
    None
}

/// Begins a search at the variables that are left out.
pub(crate) fn start(matching: &Match, variables: usize, walk: &mut Walk)
    requires { variables ≤ 192 }
    ensures { Started variables (given_in matching.now) walk.new variables }
{
    *walk = Walk::new();
    for variable in 0..variables {
        if matching.given[variable].is_some() {
            continue;
        }
        reach(walk, variable as u8, variable as u8);
    }
}

/// One search from all variables that are left out, until it meets a resource that nobody has.
pub(crate) fn search(
    matching: &Match,
    sets: &[VarSet],
    resources: usize,
    walk: &mut Walk,
) -> Option<(u8, u8)>
    requires matched { IsMatch (length sets.now) resources (fits_in sets.now) matching.now }
    ensures walk { IsWalk (length sets.now) (fits_in sets.now) (given_in matching.now) walk.new }
    ensures searched { MatchOption result (IsClosed (length sets.now) resources (fits_in sets.now) matching.now walk.new) (λ p. Met (length sets.now) resources (fits_in sets.now) matching.now walk.new p.0 p.1) }
{
    start(matching, sets.len(), walk);
    let mut head = 0;
    while head < walk.len {
        let variable = walk.queue[head];
        if let Some(resource) = scan(matching, sets, resources, walk, variable) {
            return Some((variable, resource));
        }
        head += 1;
    }
    None
}
