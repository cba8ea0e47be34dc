//! The checker of proofs of a whole problem.
ghost use Rattle.std.specs.Prelude.{◌≡◌, ◌≢◌, ◌<◌, ◌^◌, length, IfOk, IfErr, OnOk};
ghost use Rattle.refusal.specs.Refusals.{IfFault};
ghost use Rattle.choice_rank.specs.Least.{IsAnswer};
ghost use Rattle.problem.specs.Meets.{meets};
ghost use Rattle.box_rules.specs.Judged.{whole_meaning};
ghost use Rattle.refutation.specs.Trees.{IsAccepted};
ghost use Rattle.refute_check.specs.Faults.{IsRejected};

use crate::whole::{WholeRefuter, is_whole};
use problem::Problem;
use refusal::Refusal;
use refutation::{CheckFault, Proof};
use std::alloc::Global;

/// The bound of a proof that is accepted for a whole problem: the rank of the least choice that
/// meets the limits, or none where no choice meets them.
///
/// A proof is refused exactly where it is not accepted, with the first node, from 0, that breaks
/// its rule; that is also a node after the tree is whole. It is the number of nodes where they end
/// before the tree is whole, or where each keeps its rule and the bound has no witness.
pub fn check(alloc: Global, p: &Problem, proof: &Proof) -> Result<Option<u64>, Refusal<CheckFault>>
    requires whole { p.now.first ≢ 0 }
    requires few { length proof.now.nodes < 2 ^ 32 }
    ensures bound { IfOk result (λ bound. bound ≡ proof.now.bound) }
    ensures accepted { OnOk result (IsAccepted (whole_meaning p.now) proof.now.bound proof.now.nodes) }
    ensures answer { OnOk result (IsAnswer p.now.shape (meets p.now) proof.now.bound) }
    ensures rejected { IfErr result (λ e. IfFault e (IsRejected (whole_meaning p.now) proof.now.bound proof.now.nodes)) }
{
    is_whole(p);
    tree_check::check(alloc, &WholeRefuter { problem: p }, proof)
}
