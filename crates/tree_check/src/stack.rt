//! Boxes that are due, on a stack.
ghost use Rattle.std.specs.Prelude.{◌≡◌, ◌∷◌, [], ◌++◌, true, IfOk, OnOk};
ghost use Rattle.box_split.specs.Boxes.{IsBox, whole};
ghost use Rattle.box_split.specs.BoxIn.{box_in};
ghost use Rattle.refutation.specs.Trees.{low_part, high_part};
ghost use Rattle.tree_check.specs.Faults.{can_split, parts_of};
ghost use Rattle.tree_check.specs.Due.{boxes_of, can_part, AreBoxes};

use box_split::{BoxBuf, of_path};
use choice_rank::Shape;
use refutation::Node;
use res_base::OutOfMemory;
use std::alloc::Global;

/// A stack with the box of all positions.
pub(crate) fn all_due(alloc: Global, s: &Shape) -> Result<Vec<BoxBuf>, OutOfMemory>
    ensures boxes { IfOk result (λ due. boxes_of s.now due.items ≡ whole s.now ∷ []) }
    ensures are_boxes { IfOk result (λ due. AreBoxes s.now (boxes_of s.now due.items)) }
{
    let mut b = BoxBuf::new();
    of_path(s, 1, &mut b);
    let mut due = Vec::new(alloc);
    due.push(b)?;
    Ok(due)
}

/// Whether a split of a variable after a position leaves both parts of a box not empty.
pub(crate) fn can_split(s: &Shape, b: &BoxBuf, variable: u16, after: u16) -> bool
    ensures { result ≡ can_split variable after (box_in s.now b.now) }
{
    let v = variable as usize;
    if v >= s.vars().len() {
        return false;
    }
    b.lo[v] <= after && after < b.hi[v]
}

/// The lower part of a box that is split, which ends at the position.
fn low_part(s: &Shape, b: &BoxBuf, variable: u16, after: u16) -> BoxBuf
    requires { can_split variable after (box_in s.now b.now) ≡ true }
    ensures { box_in s.now result ≡ low_part variable after (box_in s.now b.now) }
{
    // The shape is read for its bounds alone.
    let _vars = s.vars();
    let mut part = *b;
    part.hi[variable as usize] = after;
    part
}

/// The upper part of a box that is split, which begins after the position.
fn high_part(s: &Shape, b: &BoxBuf, variable: u16, after: u16) -> BoxBuf
    requires { can_split variable after (box_in s.now b.now) ≡ true }
    ensures { box_in s.now result ≡ high_part variable after (box_in s.now b.now) }
{
    let _vars = s.vars();
    let _high = b.hi[variable as usize];
    let mut part = *b;
    part.lo[variable as usize] = after + 1;
    part
}

/// Pushes the boxes right below a node, the lower one last, so that it is the next.
pub(crate) fn push_parts(
    due: &mut Vec<BoxBuf>,
    s: &Shape,
    node: Node,
    b: &BoxBuf,
) -> Result<(), OutOfMemory>
    requires can_part { can_part node (box_in s.now b.now) ≡ true }
    requires is_box { IsBox s.now (box_in s.now b.now) }
    requires are_boxes { AreBoxes s.now (boxes_of s.now due.old.items) }
    ensures boxes { OnOk result (boxes_of s.now due.new.items ≡ parts_of node (box_in s.now b.now) ++ boxes_of s.now due.old.items) }
    ensures are_boxes { OnOk result (AreBoxes s.now (boxes_of s.now due.new.items)) }
{
    if let Node::Split { variable, after } = node {
        due.push(high_part(s, b, variable, after))?;
        due.push(low_part(s, b, variable, after))?;
    }
    Ok(())
}
