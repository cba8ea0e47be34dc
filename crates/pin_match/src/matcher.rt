//! The matcher: an assignment that goes from call to call.
ghost use Rattle.std.specs.Prelude.{◌≡◌, ◌↔◌, ◌+◌, ◌≤◌, Ok, MatchBool, IsNone, IfSome, length};
ghost use Rattle.pin_match.specs.Sets.{fits_in};
ghost use Rattle.pin_match.specs.Pairs.{IsMatch, IsClosed, given_in};
ghost use Rattle.pin_match.specs.Assignments.{size_of, IsFull};
ghost use Rattle.pin_match.specs.Hall.{IsHall};
ghost use Rattle.pin_match.specs.Largest.{hall_of};
ghost use Rattle.pin_match.specs.Walks.{IsSetOf};

use crate::matching::{Match, give, keep, take_free};
use crate::search::search;
use crate::walk::Walk;
use res_base::{OutOfMemory, VarSet};
use std::marker::Model;

/// Finds which variables cannot all have a resource of their own.
///
/// It keeps the assignment of its last call, and goes on from there.
#[derive(Drop)]
pub struct Matcher {
    variables: usize,
    resources: usize,
    matching: Match,
    walk: Walk,
}

impl Model for Matcher {
    ghost use Rattle.pin_match.specs.Sizes.{Sizes};
    ghost use Rattle.pin_match.specs.Pairs.{IsPaired};

    ghost Value = { Sizes };

    ghost view = { λ m. record { variables = m.variables; resources = m.resources } };

    ghost invariant = { λ m. IsPaired m.variables m.resources m.matching };
}

impl Matcher {
    /// A matcher for so many variables and resources. It takes no memory.
    pub fn new(variables: usize, resources: usize) -> Result<Matcher, OutOfMemory>
        requires variables { variables ≤ 192 }
        requires resources { resources ≤ 192 }
        ensures { result ≡ Ok (record { variables = variables; resources = resources }) }
    {
        let matching = Match::new();
        let walk = Walk::new();
        Ok(Matcher {
            variables,
            resources,
            matching,
            walk,
        })
    }

    /// None where each variable can have a resource of its set and no two the same.
    ///
    /// Else the variables that some largest such assignment leaves out: they are more than the
    /// resources in their sets together.
    pub fn hall(&mut self, sets: &[VarSet]) -> Option<VarSet>
        requires { length sets.now ≡ self.old.variables }
        ensures same { self.new ≡ self.old }
        ensures none { IsNone result ↔ IsFull self.old.variables self.old.resources (fits_in sets.now) }
        ensures left_out { IfSome result (IsHall self.old.variables self.old.resources (fits_in sets.now)) }
        ensures computed { result ≡ hall_of self.old.variables self.old.resources (fits_in sets.now) }
    {
        let resources = self.resources;
        keep(&mut self.matching, sets, resources);
        take_free(&mut self.matching, sets, resources);
        'grow: while improve(&mut self.matching, sets, resources, &mut self.walk) {}
        if self.walk.len == 0 {
            return None;
        }
        Some(reached_set(&self.walk, sets.len()))
    }
}

/// Gives one more variable a resource, or finds that none can get one.
pub(crate) fn improve(
    matching: &mut Match,
    sets: &[VarSet],
    resources: usize,
    walk: &mut Walk,
) -> bool
    requires matched { IsMatch (length sets.now) resources (fits_in sets.now) matching.old }
    ensures matched { IsMatch (length sets.now) resources (fits_in sets.now) matching.new }
    ensures improved { MatchBool result (size_of (length sets.now) (given_in matching.new) ≡ size_of (length sets.now) (given_in matching.old) + 1) (IsClosed (length sets.now) resources (fits_in sets.now) matching.new walk.new) }
{
    let Some((first, free)) = search(matching, sets, resources, walk) else {
        return false;
    };
    let mut variable = first;
    let mut resource = free;
    while let Some(let_go) = give(matching, variable, resource) {
        variable = walk.from[variable as usize];
        resource = let_go;
    }
    true
}

/// The set of what is reached.
pub(crate) fn reached_set(walk: &Walk, variables: usize) -> VarSet
    requires { variables ≤ 192 }
    ensures { IsSetOf variables walk.now result }
{
    let mut out = VarSet::new();
    for variable in 0..variables {
        if walk.reached[variable] {
            out.put(variable as u8);
        }
    }
    out
}
