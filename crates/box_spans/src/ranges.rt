//! The ranges of the nodes over all values.
ghost use Rattle.std.specs.Prelude.{◌≡◌};
ghost use Rattle.clock_limits.specs.Ranges.{AreInRange};
ghost use Rattle.box_spans.specs.Every.{AreFilled, ranges_of};
ghost use Rattle.res_model.specs.Clock.{AreFacts};

use crate::runs::all_runs;
use clock_limits::NodeRanges;
use res_base::Items;
use res_model::Facts;

/// The ranges of the nodes over all values of the clock variables.
///
/// `values` has the values of the ten clock variables in their order, with HSI 0, HSE 1 and PLL 2.
pub fn spans(f: &Facts, values: &[Items<u16>]) -> NodeRanges
    requires facts { AreFacts f.now }
    requires in_range { AreInRange values.now }
    requires filled { AreFilled values.now }
    ensures { result ≡ ranges_of f.now values.now }
{
    NodeRanges::over(f, &all_runs(values))
}
