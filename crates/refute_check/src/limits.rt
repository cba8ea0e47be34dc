//! Whether the clock values of a box leave no room for a limit.
ghost use Rattle.std.specs.Prelude.{◌≡◌, take};
ghost use Rattle.box_split.specs.Boxes.{IsBox};
ghost use Rattle.box_split.specs.BoxIn.{box_in};
ghost use Rattle.clock_limits.specs.Ranges.{limit_refutes};
ghost use Rattle.box_rules.specs.Judged.{clock_box, IsWhole};

use box_split::BoxBuf;
use clock_limits::{ClockBox, is_refuted_by};
use problem::Problem;

/// Whether the clock values of a box leave no room for the limit of this number.
pub(crate) fn limit_refutes(p: &Problem, limit: u8, b: &BoxBuf) -> bool
    requires whole { IsWhole p.now }
    requires is_box { IsBox p.now.shape (box_in p.now.shape b.now) }
    ensures { result ≡ limit_refutes p.now.tables p.now.facts p.now.clock (clock_box (box_in p.now.shape b.now)) limit }
{
    let parts = p.parts();
    let values = parts.clock.as_slice();
    is_refuted_by(&parts.tables, &parts.facts, values, &clock_box(b), limit)
}

/// The runs of the clock variables, which stand first.
fn clock_box(b: &BoxBuf) -> ClockBox
    ensures lo { result.lo ≡ take 10 b.now.lo }
    ensures hi { result.hi ≡ take 10 b.now.hi }
{
    let mut lo = [0; 10];
    let mut hi = [0; 10];
    lo.copy_from_slice(&b.lo[..10]);
    hi.copy_from_slice(&b.hi[..10]);
    ClockBox { lo, hi }
}
