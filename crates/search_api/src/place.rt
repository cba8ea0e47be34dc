//! A path with its box beside it.
ghost use Rattle.std.specs.Prelude.{◌≡◌, ℕ, ◌+◌, ◌*◌, Some, OnOk};
ghost use Rattle.box_split.specs.BoxIn.{box_in};
ghost use Rattle.box_split.specs.Paths.{split_from};
ghost use Rattle.search_api.specs.Places.{IsAt, PushesHalves};

use box_split::{BoxBuf, keep_lower, keep_upper, of_path};
use choice_rank::Shape;
use res_base::OutOfMemory;

/// A path with its box beside it, so that no walk has to find the box again.
#[derive(Clone, Copy, Debug, PartialEq, Eq)]
pub struct Place {
    pub path: u128,
    pub b: BoxBuf,
}

impl Place {
    /// Path 1 with the box of all choices.
    pub fn root(s: &Shape) -> Place
        ensures path { result.path ≡ 1 }
        ensures at { IsAt s.now result }
    {
        let mut b = BoxBuf::new();
        of_path(s, 1, &mut b);
        Place { path: 1, b }
    }

    /// Makes the place that of the lower half of its box, and answers that of the upper half.
    ///
    /// The lower half ends at a position of the variable that is split, both as `split_at` finds them.
    pub fn halve(&mut self, s: &Shape, variable: u16, after: u16) -> Place
        requires at { IsAt s.now self.old }
        requires split { split_from 0 (box_in s.now self.old.b) ≡ Some (variable, after) }
        ensures lower { self.new.path ≡ 2 * self.old.path }
        ensures lower_at { IsAt s.now self.new }
        ensures upper { result.path ≡ 2 * self.old.path + 1 }
        ensures upper_at { IsAt s.now result }
    {
        let _vars = s.vars();
        let mut upper = *self;
        upper.path = 2 * self.path + 1;
        keep_upper(s, &mut upper.b, variable, after);
        self.path = 2 * self.path;
        keep_lower(s, &mut self.b, variable, after);
        upper
    }
}

/// Pushes the upper half of a place's box onto a stack, and then the lower half, which is the next one.
///
/// The box is split as in `Place::halve`. After want of memory the stack may hold the upper half alone.
pub fn push_halves(
    pending: &mut Vec<Place>,
    s: &Shape,
    place: Place,
    variable: u16,
    after: u16,
) -> Result<(), OutOfMemory>
    requires at { IsAt s.now place }
    requires split { split_from 0 (box_in s.now place.b) ≡ Some (variable, after) }
    ensures { OnOk result (PushesHalves s.now place pending.old.items pending.new.items) }
{
    let mut lower = place;
    let upper = lower.halve(s, variable, after);
    pending.push(upper)?;
    pending.push(lower)?;
    Ok(())
}
