//! Whether a refutation is accepted.
ghost use Rattle.std.specs.Prelude.{◌≡◌, ◌≢◌, ◌≤◌, ◌<◌, ◌+◌, ◌^◌, length, codes, decimal, ◌++◌, IfOk};
ghost use Rattle.res_base.specs.Lists.{Each};
ghost use Rattle.problem.specs.Problem.{AreHomesDue, problem_of};
ghost use Rattle.problem.specs.declared.parts.Part.TheVariants as part;
ghost use Rattle.res_model.specs.Placed.{IsPlaced};
ghost use Rattle.solver.specs.Owed.{OfNodes, OfProblem, OfProof, accepted_text};
ghost use Rattle.answers.specs.Said.{Says};
ghost use Rattle.answers.specs.declared.answer.Status.TheVariants as status;

use crate::wide::too_wide;
use answers::{Answer, Status, counts, says};
use problem::{Part, Problem, build, wide_variable};
use refusal::Refusal;
use refutation::{CheckFault, Proof, ProofFault, read_proof};
use res_base::OutOfMemory;
use res_model::{Opts, Project, Tables};
use std::alloc::Global;

/// What is said of a refutation that is accepted.
fn accepted(alloc: Global, bound: Option<u64>) -> Result<Answer, OutOfMemory>
    ensures { IfOk result (λ a. Says a status.Done (accepted_text bound)) }
{
    match bound {
        None => says(alloc, Status::Done, "accepted: no choice"),
        Some(rank) => counts(alloc, Status::Done, "accepted: least rank ", rank),
    }
}

/// What is said of a node that breaks its rule.
fn rejected(alloc: Global, node: u32) -> Result<Answer, OutOfMemory>
    ensures { IfOk result (λ a. Says a status.ProofRefused (codes "proof: node " ++ decimal node)) }
{
    counts(alloc, Status::ProofRefused, "proof: node ", u64::from(node))
}

/// The first node that breaks its rule.
fn node_of(fault: CheckFault) -> u32
    ensures { fault ≡ CheckFault.Rejected result }
{
    match fault {
        CheckFault::Rejected { node } => node,
    }
}

/// The first line at which a text is no refutation.
fn line_of(fault: ProofFault) -> u32
    ensures { fault ≡ ProofFault.Line result }
{
    match fault {
        ProofFault::Line { line } => line,
    }
}

/// What is due for the nodes of a refutation.
fn judged(alloc: Global, p: &Problem, proof: &Proof) -> Result<Answer, OutOfMemory>
    requires whole { p.now.first ≢ 0 }
    requires few { length proof.now.nodes < 2 ^ 32 }
    ensures { IfOk result (λ a. OfNodes p.now proof.now.bound proof.now.nodes a) }
{
    match refute_check::check(alloc, p, proof) {
        Ok(bound) => accepted(alloc, bound),
        Err(Refusal::Fault(fault)) => rejected(alloc, node_of(fault)),
        Err(Refusal::OutOfMemory) => Err(OutOfMemory),
    }
}

/// What is due for the text of a refutation.
fn checked(alloc: Global, p: &Problem, text: &[u8]) -> Result<Answer, OutOfMemory>
    requires whole { p.now.first ≢ 0 }
    requires few { length text.now ≤ 67108864 }
    ensures { IfOk result (λ a. OfProof text.now p.now a) }
{
    match read_proof(alloc, text) {
        Ok(proof) => judged(alloc, p, &proof),
        Err(Refusal::Fault(fault)) => counts(
            alloc,
            Status::ProofRefused,
            "proof: line ",
            u64::from(line_of(fault)),
        ),
        Err(Refusal::OutOfMemory) => Err(OutOfMemory),
    }
}

/// Whether the text of a refutation is accepted for the problem of pins and clocks.
pub fn check(
    alloc: Global,
    t: Tables,
    p: Project,
    opts: &Opts,
    text: &[u8],
) -> Result<Answer, OutOfMemory>
    requires few { length p.signals ≤ 160 }
    requires placed { Each (IsPlaced t) p.signals }
    requires hertz { p.hse_hz < 2 ^ 32 }
    requires homes { AreHomesDue t p opts.now part.Whole }
    requires bytes { length text.now ≤ 67108864 }
    ensures { IfOk result (λ a. OfProblem (problem_of t p opts.now part.Whole) (OfProof text.now (problem_of t p opts.now part.Whole)) a) }
{
    match build(alloc, t, p, opts, Part::Whole) {
        Ok(problem) => checked(alloc, &problem, text),
        Err(Refusal::Fault(fault)) => too_wide(alloc, wide_variable(fault)),
        Err(Refusal::OutOfMemory) => Err(OutOfMemory),
    }
}
