//! From a path to its box.
ghost use Rattle.std.specs.Prelude.{◌≡◌, ◌≤◌, ◌↔◌, length, IsTrue, Some, None, IsSome, IfSome, MatchOption};
ghost use Rattle.choice_rank.specs.Choices.{HasPositions};
ghost use Rattle.box_split.specs.Boxes.{IsBox};
ghost use Rattle.box_split.specs.Paths.{box_of};
ghost use Rattle.box_split.specs.BoxIn.{box_in, runs_in, AreSingle};

use crate::buffer::BoxBuf;
use crate::parts::{make_whole, split_in};
use choice_rank::{Shape, VarShape};

/// Whether a number is a path of a shape.
pub fn is_path(s: &Shape, path: u128) -> bool
    ensures { IsTrue result ↔ IsSome (box_of s.now path) }
{
    let mut b = BoxBuf::new();
    walk(s.vars(), path, &mut b.lo, &mut b.hi).is_some()
}

/// Writes the box of a path.
pub fn of_path(s: &Shape, path: u128, out: &mut BoxBuf)
    requires { IsSome (box_of s.now path) }
    ensures found { box_of s.now path ≡ Some (box_in s.now out.new) }
    ensures is_box { IsBox s.now (box_in s.now out.new) }
{
    let _ = walk(s.vars(), path, &mut out.lo, &mut out.hi);
}

/// Writes the box of a path, and answers a variable before which none has two positions.
///
/// The answer is `None` where the number is no path. Each half begins its search for the variable
/// to split where the one before it ended, so that all of them go over the variables once.
fn walk(vars: &[VarShape], path: u128, lo: &mut [u16], hi: &mut [u16]) -> Option<usize>
    requires few { length vars.now ≤ 170 }
    requires lows { length vars.now ≤ length lo.old }
    requires highs { length vars.now ≤ length hi.old }
    requires positions { HasPositions vars.now }
    ensures within { IfSome result (λ from. from ≤ length vars.now) }
    ensures single { IfSome result (λ from. AreSingle from lo.new hi.new) }
    ensures found { MatchOption result (box_of vars.now path ≡ None) (λ _. box_of vars.now path ≡ Some (runs_in (length vars.now) lo.new hi.new)) }
{
    if path == 0 {
        return None;
    }
    if path == 1 {
        make_whole(vars, lo, hi);
        return Some(0);
    }
    let Some(from) = walk(vars, path / 2, lo, hi) else {
        return None;
    };
    let Some((variable, after)) = split_in(vars.len(), from, lo, hi) else {
        return None;
    };
    if path % 2 == 0 {
        hi[variable] = after;
    } else {
        lo[variable] = after + 1;
    }
    Some(variable)
}
