//! The limits that refute a box.
ghost use Rattle.std.specs.Prelude.{◌≡◌};
ghost use Rattle.std.specs.List.{list_all, list_any};
ghost use Rattle.res_model.specs.Clock.{AreFacts};
ghost use Rattle.res_model.specs.Power.{is_within_max, scale_limit};
ghost use Rattle.res_model.specs.ClockValues.{has_over};
ghost use Rattle.clock_limits.specs.Ranges.{AreInRange, IsClockBox, sure_pll, sure_hse, sure_over, may_pll, some_sysclk, some_pclk1, some_pclk2, overlaps, has_wish, limits_over, refuting_limit, limit_refutes};
ghost use Rattle.clock_limits.specs.Fair.{IsFair};
ghost use Rattle.clock_limits.specs.Numbered.{numbered};
ghost use Rattle.clock_limits.specs.Room.{room_by};
ghost use Rattle.clock_limits.specs.Runs.{seen};

use crate::numbers::{MHZ_48, first_broken, is_broken, is_fed, where_so};
use crate::ranges::{NodeRanges, has};
use crate::runs::{Runs, all_are, any_is};
use power_flash::{is_covered, is_within_scale};
use res_base::{Items, Ratio};
use res_model::{ClockBox, Facts, Range, TableParts, Tables, has_over, speeds_at};

/// Whether the PLL is used whatever is chosen.
fn sure_pll(f: &Facts, r: &Runs) -> bool
    ensures { result ≡ sure_pll f.now (seen r.now) }
{
    all_are(r.src, 2) || f.need48
}

/// Whether the HSE is used whatever is chosen.
fn sure_hse(f: &Facts, r: &Runs) -> bool
    ensures { result ≡ sure_hse f.now (seen r.now) }
{
    all_are(r.src, 1) || (sure_pll(f, r) && all_are(r.psrc, 1))
}

fn all_have_over(steps: &[u16]) -> bool
    ensures { result ≡ list_all has_over steps.now }
{
    steps.iter().all(|step| has_over(*step))
}

/// Whether over-drive is on whatever is chosen.
fn sure_over(r: &Runs) -> bool
    ensures { result ≡ sure_over (seen r.now) }
{
    all_have_over(r.vos)
}

/// Whether the PLL is used for some choice.
fn may_pll(f: &Facts, r: &Runs) -> bool
    ensures { result ≡ may_pll f.now (seen r.now) }
{
    any_is(r.src, 2) || f.need48
}

/// Whether a range has a number within bounds.
fn overlaps(bounds: (u64, u64), r: &Range) -> bool
    ensures { result ≡ overlaps bounds r.now }
{
    r.most.at_least_whole(bounds.0) && r.least.at_most_whole(bounds.1)
}

fn has_wish(wish: Option<u64>, r: &Range) -> bool
    ensures { result ≡ has_wish wish r.now }
{
    match wish {
        None => true,
        Some(hertz) => has(r, hertz),
    }
}

/// Whether one of these power steps allows SYSCLK.
fn some_sysclk(t: &TableParts, sysclk: &Ratio, steps: &[u16]) -> bool
    ensures { result ≡ some_sysclk t.now sysclk.now steps.now }
{
    steps
        .iter()
        .any(|step| sysclk.at_most_whole(speeds_at(t, *step).sysclk))
}

/// Whether one of these power steps allows HCLK.
fn some_hclk(t: &TableParts, hclk: &Ratio, steps: &[u16]) -> bool
    ensures { result ≡ list_any (λ vos. is_within_max hclk.now (scale_limit t.now vos)) steps.now }
{
    steps.iter().any(|vos| is_within_scale(t, hclk, *vos))
}

/// Whether one of these power steps allows PCLK1.
fn some_pclk1(t: &TableParts, pclk1: &Ratio, steps: &[u16]) -> bool
    ensures { result ≡ some_pclk1 t.now pclk1.now steps.now }
{
    steps
        .iter()
        .any(|step| pclk1.at_most_whole(speeds_at(t, *step).pclk1))
}

/// Whether one of these power steps allows PCLK2.
fn some_pclk2(t: &TableParts, pclk2: &Ratio, steps: &[u16]) -> bool
    ensures { result ≡ some_pclk2 t.now pclk2.now steps.now }
{
    steps
        .iter()
        .any(|step| pclk2.at_most_whole(speeds_at(t, *step).pclk2))
}

/// Whether the ranges leave room for each limit, from 3 to 17.
fn room_by(t: &TableParts, f: &Facts, r: &Runs, x: &NodeRanges) -> [bool; 15]
    ensures { numbered 3 result ≡ room_by t.now f.now (seen r.now) x.now }
{
    let limits = t.limits;
    let pll = sure_pll(f, r);
    [
        where_so(sure_hse(f, r), is_fed(t, f)),
        where_so(pll, overlaps(limits.vco_in, &x.vco_in)),
        where_so(pll, overlaps(limits.vco, &x.vco)),
        some_sysclk(t, &x.sysclk.least, r.vos),
        some_hclk(t, &x.hclk.least, r.vos),
        some_pclk1(t, &x.pclk1.least, r.vos),
        some_pclk2(t, &x.pclk2.least, r.vos),
        where_so(f.exact48, has(&x.clk48, MHZ_48)),
        where_so(f.most48, x.clk48.least.at_most_whole(MHZ_48)),
        x.hclk.most.at_least_whole(f.floor),
        is_covered(t, f.vdd, &x.hclk.least),
        has_wish(f.hclk, &x.hclk_reach),
        has_wish(f.pclk1, &x.pclk1),
        has_wish(f.pclk2, &x.pclk2),
        where_so(sure_over(r), may_pll(f, r)),
    ]
}

/// Whether the values leave room for each limit, from 3 to 17.
fn room_in(t: &TableParts, f: &Facts, r: &Runs) -> [bool; 15]
    requires facts { AreFacts f.now }
    requires fair { IsFair (seen r.now) }
    ensures { numbered 3 result ≡ limits_over t.now f.now (seen r.now) }
{
    let x = NodeRanges::over(f, r);
    room_by(t, f, r, &x)
}

/// The least number among limits 3 to 17 that refutes the box: its ranges leave no room for it.
///
/// `values` has the values of the ten clock variables in their order, with HSI 0, HSE 1 and PLL 2.
pub fn range_broken(t: &Tables, f: &Facts, values: &[Items<u16>], b: &ClockBox) -> Option<u8>
    requires facts { AreFacts f.now }
    requires in_range { AreInRange values.now }
    requires is_box { IsClockBox values.now b.now }
    ensures { result ≡ refuting_limit t.now f.now values.now b.now }
{
    first_broken(&room_in(t.parts(), f, &Runs::of(values, b)))
}

/// Whether the limit of this number refutes the box; a number below 3 or above 17 is none.
///
/// `values` is as in `range_broken`.
pub fn is_refuted_by(t: &Tables, f: &Facts, values: &[Items<u16>], b: &ClockBox, limit: u8) -> bool
    requires facts { AreFacts f.now }
    requires in_range { AreInRange values.now }
    requires is_box { IsClockBox values.now b.now }
    ensures { result ≡ limit_refutes t.now f.now values.now b.now limit }
{
    is_broken(&room_in(t.parts(), f, &Runs::of(values, b)), limit)
}
