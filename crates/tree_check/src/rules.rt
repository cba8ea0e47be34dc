//! What a node has to say of its box.
ghost use Rattle.std.specs.Prelude.{◌≡◌};
ghost use Rattle.box_split.specs.Boxes.{IsBox, low_of};
ghost use Rattle.box_split.specs.BoxIn.{box_in};
ghost use Rattle.refutation.specs.Outcomes.{is_below};
ghost use Rattle.tree_check.specs.Faults.{is_witness, is_witness_leaf, keeps_rule};

use crate::refuter::Refuter;
use crate::stack::can_split;
use box_split::{BoxBuf, is_single, low, lows};
use choice_rank::Shape;
use refutation::Node;

/// Whether the rule of a node holds of its box.
pub(crate) fn keeps_rule<R: Refuter>(r: &R, bound: Option<u64>, node: Node, b: &BoxBuf) -> bool
    requires serves { R.serves r.now }
    requires is_box { IsBox (R.meaning r.now).shape (box_in (R.meaning r.now).shape b.now) }
    ensures { result ≡ keeps_rule (R.meaning r.now) bound node (box_in (R.meaning r.now).shape b.now) }
{
    match node {
        Node::Split { variable, after } => can_split(r.shape(), b, variable, after),
        Node::Bad(reason) => r.refutes(reason, b),
        Node::Rank => is_above(r.shape(), bound, b),
        Node::Witness => is_witness(r, bound, b),
    }
}

/// Whether each choice of a box has a rank above the bound.
fn is_above(s: &Shape, bound: Option<u64>, b: &BoxBuf) -> bool
    requires { IsBox s.now (box_in s.now b.now) }
    ensures { result ≡ is_below bound (low_of s.now (box_in s.now b.now)) }
{
    match bound {
        Some(rank) => rank < low(s, b),
        None => false,
    }
}

/// Whether a box has one choice, which is legal and has the bound as its rank.
fn is_witness<R: Refuter>(r: &R, bound: Option<u64>, b: &BoxBuf) -> bool
    requires serves { R.serves r.now }
    requires is_box { IsBox (R.meaning r.now).shape (box_in (R.meaning r.now).shape b.now) }
    ensures { result ≡ is_witness (R.meaning r.now) bound (box_in (R.meaning r.now).shape b.now) }
{
    let Some(rank) = bound else {
        return false;
    };
    let shape = r.shape();
    is_single(shape, b) && r.meets(lows(shape, b)) && low(shape, b) == rank
}

/// Whether a node is a leaf that names a witness.
pub(crate) fn is_witness_leaf(node: Node) -> bool
    ensures { result ≡ is_witness_leaf node }
{
    matches!(node, Node::Witness)
}
