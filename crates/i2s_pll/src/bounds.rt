//! The limits that a choice keeps.
ghost use Rattle.std.specs.Prelude.{◌≡◌, ◌≤◌, ◌↔◌, IsTrue};
ghost use Rattle.res_base.specs.Fraction.{over, whole};
ghost use Rattle.res_model.specs.Limits.{AreWithin, hse_bounds};
ghost use Rattle.i2s_pll.specs.Choices.{KeepsBounds, SourceIsFed};

use crate::clocks::{i2sclk, vco};
use crate::input::{Input, fraction};
use res_base::Ratio;
use res_model::{Bounds, ClockChoice, Facts, Src, TableParts, Tables};

/// The greatest I2SCLK in hertz, a bound of this project's own.
const I2SCLK_MOST: u64 = 192_000_000;

fn are_within(bounds: (u64, u64), x: &Ratio) -> bool
    ensures { IsTrue result ↔ AreWithin bounds x.now }
{
    x.at_least_whole(bounds.0) && x.at_most_whole(bounds.1)
}

/// Whether the input, the VCO and I2SCLK keep their limits.
pub(crate) fn keeps_bounds(limits: &Bounds, i: Input, n: u16, r: u8) -> bool
    requires { 1 ≤ r }
    ensures { IsTrue result ↔ KeepsBounds limits.now (over (whole i.hertz) i.m) n r }
{
    are_within(limits.vco_in, &fraction(i))
        && (are_within(limits.vco, &vco(i, n)) && i2sclk(i, n, r).at_most_whole(I2SCLK_MOST))
}

/// The frequencies that the HSE may have.
fn hse_bounds(t: &TableParts, f: &Facts) -> (u64, u64)
    ensures { result ≡ hse_bounds t.now f.now }
{
    if f.bypass {
        t.limits.bypass
    } else {
        t.limits.crystal
    }
}

/// Whether the PLLs' source can be used: the HSE needs its input, and a frequency within its bounds.
pub(crate) fn source_is_fed(t: &Tables, f: &Facts, home: &ClockChoice) -> bool
    ensures { IsTrue result ↔ SourceIsFed t.now f.now home.now }
{
    let (least, most) = hse_bounds(t.parts(), f);
    home.psrc != Src::Hse || (f.osc_in && least <= f.hse_hz && f.hse_hz <= most)
}
