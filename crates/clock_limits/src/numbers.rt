//! Tests of one limit, and the first of all limits that fails.
ghost use Rattle.std.specs.Prelude.{◌≡◌, ◌≤◌, not, length};
ghost use Rattle.res_model.specs.Limits.{where_so, are_within, is_equal, is_as_wished, is_fed, is_met, hse_bounds, first_broken};
ghost use Rattle.res_base.specs.Fraction.{whole};
ghost use Rattle.clock_limits.specs.Numbered.{numbered};

use res_base::Ratio;
use res_model::{Facts, TableParts};

/// What the 48 MHz output must be, in hertz.
pub(crate) const MHZ_48: u64 = 48_000_000;

/// What holds where a condition does.
pub(crate) fn where_so(condition: bool, test: bool) -> bool
    ensures { result ≡ where_so condition test }
{
    !condition || test
}

pub(crate) fn are_within(bounds: (u64, u64), x: &Ratio) -> bool
    ensures { result ≡ are_within bounds x.now }
{
    x.at_least_whole(bounds.0) && x.at_most_whole(bounds.1)
}

pub(crate) fn is_exactly(x: &Ratio, hertz: u64) -> bool
    ensures { result ≡ is_equal x.now (whole hertz) }
{
    x.at_most_whole(hertz) && x.at_least_whole(hertz)
}

pub(crate) fn is_as_wished(wish: Option<u64>, x: &Ratio) -> bool
    ensures { result ≡ is_as_wished wish x.now }
{
    match wish {
        None => true,
        Some(hertz) => is_exactly(x, hertz),
    }
}

/// The frequencies that the HSE may have.
fn hse_bounds(t: &TableParts, f: &Facts) -> (u64, u64)
    ensures { result ≡ hse_bounds t.now f.now }
{
    if f.bypass {
        t.limits.bypass
    } else {
        t.limits.crystal
    }
}

/// Whether the HSE can be used.
pub(crate) fn is_fed(t: &TableParts, f: &Facts) -> bool
    ensures { result ≡ is_fed t.now f.now }
{
    let (least, most) = hse_bounds(t, f);
    f.osc_in && (least <= f.hse_hz && f.hse_hz <= most)
}

/// The number of the first limit, from 3, whose test failed.
pub(crate) fn first_broken(met: &[bool]) -> Option<u8>
    requires { length met.now ≤ 15 }
    ensures { result ≡ first_broken (numbered 3 met.now) }
{
    for k in 0..met.len() {
        if !met[k] {
            return Some(3 + k as u8);
        }
    }
    None
}

/// Whether the test of the limit of this number failed, where the first has number 3.
pub(crate) fn is_broken(met: &[bool], limit: u8) -> bool
    requires { length met.now ≤ 15 }
    ensures { result ≡ not (is_met limit (numbered 3 met.now)) }
{
    for k in 0..met.len() {
        if 3 + k as u8 == limit {
            return !met[k];
        }
    }
    false
}
