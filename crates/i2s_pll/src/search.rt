//! The choice of least error.
ghost use Rattle.std.specs.Prelude.{◌≡◌, ◌<◌, ◌≤◌, ◌^◌, ◌+◌, ◌/◌, ◌*◌, ◌↔◌, IsTrue, Some, None, max, min};
ghost use Rattle.res_base.specs.Fraction.{IsAtMost, over, whole};
ghost use Rattle.res_model.specs.Clock.{IsBetween, IsInRange, vco_in_of};
ghost use Rattle.i2s_pll.specs.Choices.{HasDividers, divider, i2sclk_of};
ghost use Rattle.i2s_pll.specs.Least.{IsAnswer, error_of};
ghost use Rattle.i2s_pll.specs.Walk.{IsBest, IsNearer, IsNearest, IsSeen, weight};

use crate::bounds::{keeps_bounds, source_is_fed};
use crate::choice::I2s;
use crate::clocks::{error, i2sclk};
use crate::input::{Input, input_of};
use res_model::{Bounds, ClockChoice, Facts, Tables};

/// What is asked: a sample rate in hertz from an input, within the limits of a table.
#[derive(Clone, Copy, Debug)]
pub(crate) struct Request {
    pub limits: Bounds,
    pub input: Input,
    pub rate: u32,
}

/// The choice of least error among all that keep the limits of the table, where the homes are the source and M of the PLLs;
/// None where none keeps them. Errors compare as fractions; of equal ones the least N, R, DIV and ODD in this order.
///
/// The rate is in hertz, and the I2S gives out its master clock.
pub fn best_i2s(t: &Tables, f: &Facts, home: &ClockChoice, rate: u32) -> Option<I2s>
    requires rate { IsBetween 8000 192000 rate }
    requires home { IsInRange home.now }
    requires hse { f.now.hse_hz < 2 ^ 32 }
    ensures { IsAnswer t.now f.now home.now rate result }
{
    if !source_is_fed(t, f, home) {
        return None;
    }
    let request = request_of(t, f, home, rate);
    let (least, most) = range_of_n(t);
    best_among(&request, least, most)
}

/// What is asked where the homes are chosen.
fn request_of(t: &Tables, f: &Facts, home: &ClockChoice, rate: u32) -> Request
    requires home { IsInRange home.now }
    requires hse { f.now.hse_hz < 2 ^ 32 }
    ensures limits { result.limits ≡ t.now.limits }
    ensures input { over (whole result.input.hertz) result.input.m ≡ vco_in_of f.now home.now }
    ensures rate { result.rate ≡ rate }
{
    Request {
        limits: t.parts().limits,
        input: input_of(f, home),
        rate,
    }
}

/// The least and the greatest N of a table.
fn range_of_n(t: &Tables) -> (u16, u16)
    ensures value { result ≡ t.now.clock.n }
    ensures ordered { result.0 ≤ result.1 }
    ensures few { result.1 ≤ 432 }
{
    t.keeps_rules();
    t.parts().clock.n
}

/// The best choice whose N lies between these.
pub(crate) fn best_among(q: &Request, least: u16, most: u16) -> Option<I2s>
    requires rate { IsBetween 8000 192000 q.now.rate }
    requires ordered { least ≤ most }
    requires few { most ≤ 432 }
    ensures { IsBest (over (whole q.now.input.hertz) q.now.input.m) q.now.rate (IsSeen q.now.limits (over (whole q.now.input.hertz) q.now.input.m) least ((most + 1) * 8 + 2)) result }
{
    let mut best = None;
    for n in least..most + 1 {
        best = with_n(q, least, n, best);
    }
    best
}

/// The best of a choice and all that have this N.
fn with_n(q: &Request, least: u16, n: u16, before: Option<I2s>) -> Option<I2s>
    requires rate { IsBetween 8000 192000 q.now.rate }
    requires low { least ≤ n }
    requires before { IsBest (over (whole q.now.input.hertz) q.now.input.m) q.now.rate (IsSeen q.now.limits (over (whole q.now.input.hertz) q.now.input.m) least (n * 8 + 2)) before }
    ensures { IsBest (over (whole q.now.input.hertz) q.now.input.m) q.now.rate (IsSeen q.now.limits (over (whole q.now.input.hertz) q.now.input.m) least ((n + 1) * 8 + 2)) result }
{
    let mut best = before;
    for r in 2..8 {
        best = with_r(q, least, n, r, best);
    }
    best
}

/// The best of a choice and all that have this N and R.
fn with_r(q: &Request, least: u16, n: u16, r: u8, best: Option<I2s>) -> Option<I2s>
    requires rate { IsBetween 8000 192000 q.now.rate }
    requires low { least ≤ n }
    requires r { IsBetween 2 7 r }
    requires best { IsBest (over (whole q.now.input.hertz) q.now.input.m) q.now.rate (IsSeen q.now.limits (over (whole q.now.input.hertz) q.now.input.m) least (n * 8 + r)) best }
    ensures { IsBest (over (whole q.now.input.hertz) q.now.input.m) q.now.rate (IsSeen q.now.limits (over (whole q.now.input.hertz) q.now.input.m) least (n * 8 + (r + 1))) result }
{
    if !keeps_bounds(&q.limits, q.input, n, r) {
        return best;
    }
    let x = nearest(q, n, r);
    match best {
        None => Some(x),
        Some(y) => Some(nearer(q, y, x)),
    }
}

/// The choice of least error with this N and R: its divider is one of the two beside the one that would give the rate exactly.
fn nearest(q: &Request, n: u16, r: u8) -> I2s
    requires rate { IsBetween 8000 192000 q.now.rate }
    requires r { IsBetween 2 7 r }
    ensures { IsNearest (over (whole q.now.input.hertz) q.now.input.m) q.now.rate n r result }
{
    let below = crossing(q, n, r);
    let first = divided(n, r, clamped(below));
    let second = divided(n, r, clamped(below + 1));
    nearer(q, first, second)
}

/// The greatest divider that still gives at least the rate.
fn crossing(q: &Request, n: u16, r: u8) -> u64
    requires rate { IsBetween 8000 192000 q.now.rate }
    requires r { IsBetween 2 7 r }
    ensures value { result ≡ (i2sclk_of (over (whole q.now.input.hertz) q.now.input.m) n r).num / (i2sclk_of (over (whole q.now.input.hertz) q.now.input.m) n r).den / (256 * q.now.rate) }
    ensures small { result < 2 ^ 63 }
{
    i2sclk(q.input, n, r).floor() / (256 * q.rate as u64)
}

/// A divider within its range.
fn clamped(divider: u64) -> u16
    ensures { result ≡ max 4 (min divider 511) }
{
    divider.min(511).max(4) as u16
}

/// The choice that divides by this.
fn divided(n: u16, r: u8, by: u16) -> I2s
    requires r { IsBetween 2 7 r }
    requires by { IsBetween 4 511 by }
    ensures n { result.n ≡ n }
    ensures r { result.r ≡ r }
    ensures by { divider result ≡ by }
    ensures dividers { HasDividers result }
{
    I2s {
        n,
        r,
        div: (by / 2) as u8,
        odd: (by % 2) as u8,
    }
}

/// The choice of less error, and of equal ones the first.
fn nearer(q: &Request, first: I2s, second: I2s) -> I2s
    requires rate { IsBetween 8000 192000 q.now.rate }
    requires first { HasDividers first }
    requires second { HasDividers second }
    requires order { weight first ≤ weight second }
    ensures { IsNearer (over (whole q.now.input.hertz) q.now.input.m) q.now.rate first second result }
{
    if is_as_near(q, first, second) {
        first
    } else {
        second
    }
}

/// Whether the error of the first is at most that of the second, as fractions.
fn is_as_near(q: &Request, first: I2s, second: I2s) -> bool
    requires rate { IsBetween 8000 192000 q.now.rate }
    requires first { HasDividers first }
    requires second { HasDividers second }
    ensures { IsTrue result ↔ IsAtMost (error_of (over (whole q.now.input.hertz) q.now.input.m) q.now.rate first) (error_of (over (whole q.now.input.hertz) q.now.input.m) q.now.rate second) }
{
    error(q.input, q.rate, first).at_most(&error(q.input, q.rate, second))
}
