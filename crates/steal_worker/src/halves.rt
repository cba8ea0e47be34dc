//! A place that becomes that of a half of its box.
ghost use Rattle.std.specs.Prelude.{◌≡◌, ◌+◌, ◌*◌, Some};
ghost use Rattle.box_split.specs.BoxIn.{box_in};
ghost use Rattle.box_split.specs.Paths.{split_from};
ghost use Rattle.search_api.specs.Places.{IsAt};

use box_split::{keep_lower, keep_upper};
use choice_rank::Shape;
use search_api::Place;

/// Makes a place that of the lower half of its box, which ends at a position of the variable that is split.
pub(crate) fn make_lower(s: &Shape, place: &mut Place, variable: u16, after: u16)
    requires at { IsAt s.now place.old }
    requires split { split_from 0 (box_in s.now place.old.b) ≡ Some (variable, after) }
    ensures path { place.new.path ≡ 2 * place.old.path }
    ensures at { IsAt s.now place.new }
{
    let _vars = s.vars();
    place.path = 2 * place.path;
    keep_lower(s, &mut place.b, variable, after);
}

/// Makes a place that of the upper half of its box, which begins after a position of the variable that is split.
pub(crate) fn make_upper(s: &Shape, place: &mut Place, variable: u16, after: u16)
    requires at { IsAt s.now place.old }
    requires split { split_from 0 (box_in s.now place.old.b) ≡ Some (variable, after) }
    ensures path { place.new.path ≡ 2 * place.old.path + 1 }
    ensures at { IsAt s.now place.new }
{
    let _vars = s.vars();
    place.path = 2 * place.path + 1;
    keep_upper(s, &mut place.b, variable, after);
}
