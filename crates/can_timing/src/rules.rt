//! What a timing has to keep, and what refutes all timings between two.
ghost use Rattle.std.specs.Prelude.{◌≡◌};
ghost use Rattle.can_timing.specs.Timings.{has_rate, is_early, is_late, serves};
ghost use Rattle.can_timing.specs.Judged.{is_outside, misses_point, mixed};

use crate::request::Request;
use crate::timing::{Timing, clocks, quanta};
use res_base::Ratio;

/// Whether the clock is the rate times the periods of a bit, exactly.
fn has_rate(q: &Request, t: Timing) -> bool
    ensures { result ≡ has_rate q.now t }
{
    q.pclk.equals(&Ratio::whole(q.rate as u64 * clocks(t)))
}

/// Whether the sample point comes sooner than the tolerance allows.
fn is_early(q: &Request, t: Timing) -> bool
    ensures { result ≡ is_early q.now t }
{
    let quanta = quanta(t);
    1000 * (1 + t.bs1 as u64) + q.tolerance as u64 * quanta < q.point as u64 * quanta
}

/// Whether the sample point comes later than the tolerance allows.
fn is_late(q: &Request, t: Timing) -> bool
    ensures { result ≡ is_late q.now t }
{
    (q.point as u64 + q.tolerance as u64) * quanta(t) < 1000 * (1 + t.bs1 as u64)
}

/// Whether a timing is as asked for.
pub(crate) fn serves(q: &Request, t: Timing) -> bool
    ensures { result ≡ serves q.now t }
{
    has_rate(q, t) && (!is_early(q, t) && !is_late(q, t))
}

/// Whether the clock lies outside the rate times the periods from the least timing's to the greatest's.
pub(crate) fn is_outside(q: &Request, least: Timing, greatest: Timing) -> bool
    ensures { result ≡ is_outside q.now least greatest }
{
    let low = q.rate as u64 * clocks(least);
    let high = q.rate as u64 * clocks(greatest);
    !(q.pclk.at_least_whole(low) && q.pclk.at_most_whole(high))
}

/// The first segment of one timing with the second of another.
fn mixed(a: Timing, b: Timing) -> Timing
    ensures { result ≡ mixed a b }
{
    Timing {
        brp: a.brp,
        bs1: a.bs1,
        bs2: b.bs2,
    }
}

/// Whether each timing from the least to the greatest has its sample point too early, or each too late.
pub(crate) fn misses_point(q: &Request, least: Timing, greatest: Timing) -> bool
    ensures { result ≡ misses_point q.now least greatest }
{
    is_early(q, mixed(greatest, least)) || is_late(q, mixed(least, greatest))
}
