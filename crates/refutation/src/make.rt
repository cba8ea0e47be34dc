//! The tree of an outcome.
ghost use Rattle.std.specs.Prelude.{◌≡◌, ℕ, ◌<◌, List, [], ◌∷◌, ◌++◌, OnOk, IfOk};
ghost use Rattle.std.specs.Ordering.{nat_cmp};
ghost use Rattle.std.specs.BTreeMap.{get};
ghost use Rattle.box_split.specs.Boxes.{IsBox, low_of};
ghost use Rattle.box_split.specs.BoxIn.{box_in};
ghost use Rattle.search_api.specs.Meaning.{Meaning, IsLawful};
ghost use Rattle.search_api.specs.Places.{paths_of, work_of};
ghost use Rattle.refutation.specs.Outcomes.{is_below, cause_at, IsCovered, IsSound, IsOwned};
ghost use Rattle.refutation.specs.Trees.{IsAccepted};
ghost use Rattle.refutation.specs.Canonical.{IsMadeOf, IsCanonicalOf};
ghost use Rattle.refutation.specs.Making.{node_of, Placed};

use crate::node::{Node, Proof};
use box_split::{BoxBuf, low, split_at};
use choice_rank::Shape;
use res_base::{Items, OutOfMemory};
use search_api::{Cause, Closed, Outcome, Place, push_halves};
use std::alloc::Global;
use std::collections::BTreeMap;

/// The nodes written so far, and the boxes still to go, the next one last.
#[derive(Drop)]
struct Making {
    pending: Vec<Place>,
    nodes: Items<Node>,
}

/// The proof of an outcome, under its best rank.
///
/// At each box it has `Rank` where the best rank is below the low, else the reason or the `Witness`
/// of the path that was closed there, else the split. It is accepted by each lawful judge of the
/// shape for which the outcome is sound, and where its reasons and splits are also the judge's own
/// it is the judge's canonical proof, whatever the order in which boxes were closed.
pub fn canonical(alloc: Global, s: &Shape, o: &Outcome) -> Result<Proof, OutOfMemory>
    requires covered { IsCovered s.now o.now.best o.now.kept o.now.closed }
    ensures bound { IfOk result (λ p. p.bound ≡ o.now.best) }
    ensures made { IfOk result (λ p. IsMadeOf s.now o.now.best o.now.closed p.nodes) }
    ensures accepted { IfOk result (λ p. (m : Meaning) → m.shape ≡ s.now → IsLawful m → IsSound m o.now.kept o.now.closed → IsAccepted m p.bound p.nodes) }
    ensures canonical { IfOk result (λ p. (m : Meaning) → m.shape ≡ s.now → IsLawful m → IsSound m o.now.kept o.now.closed → IsOwned m o.now.closed → IsCanonicalOf m p.bound p.nodes) }
{
    let _vars = s.vars();
    let causes = causes_of(alloc, o.closed.as_slice())?;
    let mut making = Making {
        pending: Vec::new(alloc),
        nodes: Items::of(Vec::new(alloc)),
    };
    making.pending.push(Place::root(s))?;
    while let Some(place) = making.pending.pop() {
        turn(s, o, &causes, &mut making, place)?;
    }
    Ok(Proof {
        bound: o.best,
        nodes: making.nodes,
    })
}

/// Why each path was closed.
fn causes_of(alloc: Global, closed: &[Closed]) -> Result<BTreeMap<u128, Cause>, OutOfMemory>
    ensures { IfOk result (λ causes. (path : ℕ) → get nat_cmp causes path ≡ cause_at closed.now path) }
{
    let mut causes = BTreeMap::new(alloc);
    for entry in closed {
        causes.insert(entry.path, entry.cause)?;
    }
    Ok(causes)
}

/// Writes the node of a place's box.
fn turn(
    s: &Shape,
    o: &Outcome,
    causes: &BTreeMap<u128, Cause>,
    making: &mut Making,
    place: Place,
) -> Result<(), OutOfMemory>
    requires finds { (path : ℕ) → get nat_cmp causes.now path ≡ cause_at o.now.closed path }
    requires placed { Placed s.now o.now.best o.now.closed (making.old.pending.items ++ place ∷ []) making.old.nodes }
    ensures placed { OnOk result (Placed s.now o.now.best o.now.closed making.new.pending.items making.new.nodes) }
    ensures less { OnOk result (work_of s.now (paths_of making.new.pending.items) < work_of s.now (paths_of (making.old.pending.items ++ place ∷ []))) }
{
    let _vars = s.vars();
    let node = node_of(s, o.best, causes.get(&place.path).copied(), &place.b);
    making.nodes.push(node)?;
    match node {
        Node::Split { variable, after } => {
            push_halves(&mut making.pending, s, place, variable, after)
        }
        _ => Ok(()),
    }
}

/// The node of a box, from the cause of its path where it was closed.
///
/// A box that was cut has its low above the best rank, and one that was not closed has two choices,
/// so that the last two answers of `Rank` never come.
fn node_of(s: &Shape, best: Option<u64>, found: Option<Cause>, b: &BoxBuf) -> Node
    requires { IsBox s.now (box_in s.now b.now) }
    ensures { result ≡ node_of s.now best found (box_in s.now b.now) }
{
    if is_above(s, b, best) {
        return Node::Rank;
    }
    match found {
        Some(Cause::Bad(reason)) => Node::Bad(reason),
        Some(Cause::Leaf { .. }) => Node::Witness,
        Some(Cause::Cut { .. }) => Node::Rank,
        None => match split_at(s, b) {
            Some((variable, after)) => Node::Split { variable, after },
            None => Node::Rank,
        },
    }
}

/// Whether each choice of a box has a rank above the best one.
fn is_above(s: &Shape, b: &BoxBuf, best: Option<u64>) -> bool
    requires { IsBox s.now (box_in s.now b.now) }
    ensures { result ≡ is_below best (low_of s.now (box_in s.now b.now)) }
{
    match best {
        Some(rank) => rank < low(s, b),
        None => false,
    }
}
