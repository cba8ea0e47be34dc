//! The checker of proofs over a refuter.
ghost use Rattle.std.specs.Prelude.{◌≡◌, ◌<◌, ◌^◌, ◌∷◌, [], length, IfOk, IfErr, OnOk};
ghost use Rattle.std.specs.List.{list_any};
ghost use Rattle.refusal.specs.Refusals.{IfFault};
ghost use Rattle.choice_rank.specs.Least.{IsAnswer};
ghost use Rattle.box_split.specs.Boxes.{whole};
ghost use Rattle.refutation.specs.Trees.{IsAccepted};
ghost use Rattle.tree_check.specs.Faults.{fault_at, fault_from, fault_of_witness, is_witness_leaf, IsRejected};

use crate::refuter::Refuter;
use crate::rules::{is_witness_leaf, keeps_rule};
use crate::stack::{all_due, push_parts};
use refusal::Refusal;
use refutation::{CheckFault, Node, Proof};
use res_base::OutOfMemory;
use std::alloc::Global;

/// The bound of a proof that is accepted: the rank of the least legal choice, or none where no choice is legal.
///
/// A proof is refused exactly where it is not accepted, with the first node, from 0, that breaks
/// its rule; that is also a node after the tree is whole. It is the number of nodes where they end
/// before the tree is whole, or where each keeps its rule and the bound has no witness.
pub fn check<R: Refuter>(
    alloc: Global,
    r: &R,
    proof: &Proof,
) -> Result<Option<u64>, Refusal<CheckFault>>
    requires serves { R.serves r.now }
    requires few { length proof.now.nodes < 2 ^ 32 }
    ensures bound { IfOk result (λ bound. bound ≡ proof.now.bound) }
    ensures accepted { OnOk result (IsAccepted (R.meaning r.now) proof.now.bound proof.now.nodes) }
    ensures answer { OnOk result (IsAnswer (R.meaning r.now).shape (R.meaning r.now).legal proof.now.bound) }
    ensures rejected { IfErr result (λ e. IfFault e (IsRejected (R.meaning r.now) proof.now.bound proof.now.nodes)) }
{
    let nodes = proof.nodes.as_slice();
    match fault_at(alloc, r, proof.bound, nodes) {
        Ok(None) => Ok(proof.bound),
        Ok(Some(node)) => Err(Refusal::Fault(CheckFault::Rejected { node })),
        Err(_) => Err(Refusal::OutOfMemory),
    }
}

/// The first node that is at fault, if one is.
fn fault_at<R: Refuter>(
    alloc: Global,
    r: &R,
    bound: Option<u64>,
    nodes: &[Node],
) -> Result<Option<u32>, OutOfMemory>
    requires serves { R.serves r.now }
    requires few { length nodes.now < 2 ^ 32 }
    ensures { IfOk result (λ found. found ≡ fault_at (R.meaning r.now) bound nodes.now) }
{
    let broken = first_broken(alloc, r, bound, nodes)?;
    match broken {
        Some(node) => Ok(Some(node)),
        None => Ok(fault_of_witness(bound, nodes)),
    }
}

/// The number of nodes, where a bound has no witness.
fn fault_of_witness(bound: Option<u64>, nodes: &[Node]) -> Option<u32>
    requires { length nodes.now < 2 ^ 32 }
    ensures { result ≡ fault_of_witness bound nodes.now }
{
    if bound.is_none() {
        return None;
    }
    if has_witness(nodes) {
        return None;
    }
    Some(nodes.len() as u32)
}

fn has_witness(nodes: &[Node]) -> bool
    ensures { result ≡ list_any is_witness_leaf nodes.now }
{
    nodes.iter().any(|node| is_witness_leaf(*node))
}

/// The first node that breaks its rule or that no box is due for; the number of nodes where they end too early.
fn first_broken<R: Refuter>(
    alloc: Global,
    r: &R,
    bound: Option<u64>,
    nodes: &[Node],
) -> Result<Option<u32>, OutOfMemory>
    requires serves { R.serves r.now }
    requires few { length nodes.now < 2 ^ 32 }
    ensures { IfOk result (λ found. found ≡ fault_from (R.meaning r.now) bound 0 nodes.now (whole (R.meaning r.now).shape ∷ [])) }
{
    let shape = r.shape();
    let mut due = all_due(alloc, shape)?;
    for number in 0..nodes.len() {
        let Some(b) = due.pop() else {
            return Ok(Some(number as u32));
        };
        let node = nodes[number];
        if !keeps_rule(r, bound, node, &b) {
            return Ok(Some(number as u32));
        }
        push_parts(&mut due, shape, node, &b)?;
    }
    if due.is_empty() {
        return Ok(None);
    }
    Ok(Some(nodes.len() as u32))
}
