//! The checker of refutations.
ghost use Rattle.std.specs.Prelude.{◌≡◌, ◌≤◌, ◌<◌, ◌^◌, ◌&&◌, ℕ, length, IfErr, IfOk, OnOk, not, nat_lt};
ghost use Rattle.res_base.specs.VarSet.{in_set};
ghost use Rattle.refusal.specs.Refusals.{IfFault};
ghost use Rattle.box_split.specs.BoxIn.{box_in, runs_in};
ghost use Rattle.box_split.specs.Boxes.{IsBox};
ghost use Rattle.choice_rank.specs.Choices.{IsChoice};
ghost use Rattle.choice_rank.specs.Least.{IsAnswer};
ghost use Rattle.pin_match.specs.Hall.{any_below, is_wanted};
ghost use Rattle.refutation.specs.Trees.{IsAccepted};
ghost use Rattle.tree_check.specs.Faults.{IsRejected};
ghost use Rattle.tree_check.specs.Sound.{of_judge};
ghost use Rattle.dma_rules.specs.Judged.{CanBeJudged, are_requests, can_have, dma_meaning, reason_refutes, hall_refutes};
ghost use Rattle.dma_rules.specs.Lawful.{dma_lawful};
ghost use Rattle.dma_rules.specs.Streams.{meets, shape_of};

use crate::streams::{add_streams, meets, request_at, rows_in};
use crate::want::DmaWant;
use box_split::BoxBuf;
use choice_rank::Shape;
use dma_model::DmaRequest;
use refusal::Refusal;
use refutation::{CheckFault, Proof};
use res_base::VarSet;
use search_api::{Class, Reason};
use std::alloc::Global;
use tree_check::Refuter;

impl Refuter for DmaWant {
    ghost meaning = { λ w. dma_meaning w };

    ghost serves = { λ w. CanBeJudged w };

    fn shape(&self) -> &Shape {
        DmaWant::shape(self)
    }

    fn refutes(&self, reason: Reason, b: &BoxBuf) -> bool {
        refutes(self, reason, b)
    }

    fn meets(&self, at: &[u16]) -> bool {
        is_legal(self, at)
    }

    ghost sound = { λ w judged. of_judge (dma_meaning w) (dma_lawful w judged) };
}

/// Whether a reason refutes a box of wanted requests.
fn refutes(w: &DmaWant, reason: Reason, b: &BoxBuf) -> bool
    requires judged { CanBeJudged w.now }
    requires is_box { IsBox (shape_of w.now) (box_in (shape_of w.now) b.now) }
    ensures { result ≡ reason_refutes w.now reason (box_in (shape_of w.now) b.now) }
{
    reason_refutes(w.requests(), reason, &b.lo, &b.hi)
}

/// Whether no two wanted requests take one stream in a choice.
fn is_legal(w: &DmaWant, at: &[u16]) -> bool
    requires { IsChoice (shape_of w.now) at.now }
    ensures { result ≡ meets w.now at.now }
{
    meets(w.requests(), at)
}

/// Whether a variable is that of a request.
fn is_request(requests: &[DmaRequest], v: u8) -> bool
    ensures { result ≡ nat_lt v (length requests.now) }
{
    (v as usize) < requests.len()
}

/// Whether each member of a set is the variable of a request.
fn are_requests(requests: &[DmaRequest], vars: &VarSet) -> bool
    ensures { result ≡ are_requests (length requests.now) vars.now }
{
    for v in 0..192u8 {
        if vars.has(v) && !is_request(requests, v) {
            return false;
        }
    }
    true
}

/// The streams that the requests of a set can have together in a box.
fn streams_of(requests: &[DmaRequest], vars: &VarSet, lo: &[u16], hi: &[u16]) -> VarSet
    requires judged { CanBeJudged requests.now }
    requires low { length requests.now ≤ length lo.now }
    requires high { length requests.now ≤ length hi.now }
    requires is_box { IsBox (shape_of requests.now) (runs_in (length requests.now) lo.now hi.now) }
    ensures { (s : ℕ) → in_set result s ≡ is_wanted (length requests.now) (can_have requests.now (runs_in (length requests.now) lo.now hi.now)) vars.now s }
{
    let mut found = VarSet::new();
    for v in 0..requests.len() {
        if vars.has(v as u8) {
            let request = request_at(requests, v);
            add_streams(&mut found, rows_in(request, lo[v], hi[v]));
        }
    }
    found
}

/// Whether the requests of a set are more than the streams that they can have together in a box.
fn hall_refutes(requests: &[DmaRequest], vars: &VarSet, lo: &[u16], hi: &[u16]) -> bool
    requires judged { CanBeJudged requests.now }
    requires low { length requests.now ≤ length lo.now }
    requires high { length requests.now ≤ length hi.now }
    requires is_box { IsBox (shape_of requests.now) (runs_in (length requests.now) lo.now hi.now) }
    ensures { result ≡ hall_refutes requests.now (runs_in (length requests.now) lo.now hi.now) vars.now }
{
    if !are_requests(requests, vars) {
        return false;
    }
    let streams = streams_of(requests, vars, lo, hi);
    streams.len() < vars.len()
}

/// Whether a reason refutes a box: the class of pins stands for streams, and no other reason refutes one.
fn reason_refutes(requests: &[DmaRequest], reason: Reason, lo: &[u16], hi: &[u16]) -> bool
    requires judged { CanBeJudged requests.now }
    requires low { length requests.now ≤ length lo.now }
    requires high { length requests.now ≤ length hi.now }
    requires is_box { IsBox (shape_of requests.now) (runs_in (length requests.now) lo.now hi.now) }
    ensures { result ≡ reason_refutes requests.now reason (runs_in (length requests.now) lo.now hi.now) }
{
    match reason {
        Reason::Hall {
            class: Class::Pins,
            vars,
        } => hall_refutes(requests, &vars, lo, hi),
        Reason::Hall {
            class: Class::Exti,
            ..
        } => false,
        Reason::Limit(_) => false,
    }
}

/// That wanted requests have what a checker needs of them.
fn can_be_judged(w: &DmaWant)
    ensures { CanBeJudged w.now }
{
    w.keeps_bounds();
}

/// The bound of a proof that is accepted for wanted requests: the rank of the least choice in which no two take one
/// stream, or none where there is no such choice.
///
/// A proof is refused exactly where it is not accepted, with the first node at fault, as `tree_check` names it.
pub fn check_dma(
    alloc: Global,
    w: &DmaWant,
    proof: &Proof,
) -> Result<Option<u64>, Refusal<CheckFault>>
    requires { length proof.now.nodes < 2 ^ 32 }
    ensures bound { IfOk result (λ bound. bound ≡ proof.now.bound) }
    ensures accepted { OnOk result (IsAccepted (dma_meaning w.now) proof.now.bound proof.now.nodes) }
    ensures answer { OnOk result (IsAnswer (shape_of w.now) (meets w.now) proof.now.bound) }
    ensures rejected { IfErr result (λ e. IfFault e (IsRejected (dma_meaning w.now) proof.now.bound proof.now.nodes)) }
{
    can_be_judged(w);
    tree_check::check(alloc, w, proof)
}
