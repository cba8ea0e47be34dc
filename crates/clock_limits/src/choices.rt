//! The limits that a choice breaks.
ghost use Rattle.std.specs.Prelude.{◌≡◌, ◌<◌, ◌^◌};
ghost use Rattle.res_model.specs.Clock.{AreFacts, IsInRange};
ghost use Rattle.res_model.specs.Limits.{limits_of, broken_limit};
ghost use Rattle.clock_limits.specs.Numbered.{numbered, within_where_there, exactly_where_there, most_where_there};

use crate::numbers::{
    MHZ_48, are_within, first_broken, is_as_wished, is_exactly, is_fed, where_so,
};
use clock_tree::{hse_used, nodes, pll_used};
use power_flash::{is_covered, is_within_scale};
use res_base::Ratio;
use res_model::{ClockChoice, Facts, TableParts, Tables, has_over, speeds_at};

/// Whether a node of the PLL is within bounds, where it is there.
fn within_where_there(bounds: (u64, u64), x: &Option<Ratio>) -> bool
    ensures { result ≡ within_where_there bounds x.now }
{
    match x {
        None => true,
        Some(x) => are_within(bounds, x),
    }
}

fn exactly_where_there(x: &Option<Ratio>) -> bool
    ensures { result ≡ exactly_where_there x.now }
{
    match x {
        None => true,
        Some(x) => is_exactly(x, MHZ_48),
    }
}

fn most_where_there(x: &Option<Ratio>) -> bool
    ensures { result ≡ most_where_there x.now }
{
    match x {
        None => true,
        Some(x) => x.at_most_whole(MHZ_48),
    }
}

/// Whether the choice meets each limit, from 3 to 17.
fn met_by(t: &TableParts, f: &Facts, c: &ClockChoice) -> [bool; 15]
    requires choice { IsInRange c.now }
    requires facts { AreFacts f.now }
    ensures { numbered 3 result ≡ limits_of t.now f.now c.now }
{
    let n = nodes(f, c);
    let limits = t.limits;
    let step = u16::from(c.vos);
    let speeds = speeds_at(t, step);
    [
        where_so(hse_used(f, c), is_fed(t, f)),
        within_where_there(limits.vco_in, &n.vco_in),
        within_where_there(limits.vco, &n.vco),
        n.sysclk.at_most_whole(speeds.sysclk),
        is_within_scale(t, &n.hclk, step),
        n.pclk1.at_most_whole(speeds.pclk1),
        n.pclk2.at_most_whole(speeds.pclk2),
        where_so(f.exact48, exactly_where_there(&n.clk48)),
        where_so(f.most48, most_where_there(&n.clk48)),
        n.hclk.at_least_whole(f.floor),
        is_covered(t, f.vdd, &n.hclk),
        is_as_wished(f.hclk, &n.hclk),
        is_as_wished(f.pclk1, &n.pclk1),
        is_as_wished(f.pclk2, &n.pclk2),
        where_so(has_over(step), pll_used(f, c)),
    ]
}

/// The least number among limits 3 to 17 that the choice breaks.
pub fn broken(t: &Tables, f: &Facts, c: &ClockChoice) -> Option<u8>
    requires choice { IsInRange c.now }
    requires facts { AreFacts f.now }
    ensures { result ≡ broken_limit t.now f.now c.now }
{
    first_broken(&met_by(t.parts(), f, c))
}
