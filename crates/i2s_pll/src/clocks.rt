//! The clocks of a choice, and its error.
ghost use Rattle.std.specs.Prelude.{◌≡◌, ◌*◌, ◌+◌, ◌<◌, ◌≤◌, ◌^◌};
ghost use Rattle.res_base.specs.Fraction.{over, times, whole};
ghost use Rattle.i2s_pll.specs.Choices.{HasDividers, divider, i2sclk_of, sample_rate, vco_of};
ghost use Rattle.i2s_pll.specs.Least.{apart, error_of};

use crate::choice::I2s;
use crate::input::{Input, fraction};
use res_base::Ratio;

pub(crate) fn vco(i: Input, n: u16) -> Ratio
    ensures { result ≡ vco_of (over (whole i.hertz) i.m) n }
{
    fraction(i).times(n)
}

pub(crate) fn i2sclk(i: Input, n: u16, r: u8) -> Ratio
    requires { 1 ≤ r }
    ensures { result ≡ i2sclk_of (over (whole i.hertz) i.m) n r }
{
    vco(i, n).over(r as u16)
}

/// What the I2S divides by.
fn divider(x: I2s) -> u16
    requires { HasDividers x }
    ensures value { result ≡ divider x }
    ensures some { 4 ≤ result }
    ensures most { result ≤ 511 }
{
    2 * x.div as u16 + x.odd as u16
}

pub(crate) fn sample_rate(i: Input, x: I2s) -> Ratio
    requires { HasDividers x }
    ensures { result ≡ sample_rate (over (whole i.hertz) i.m) x }
{
    i2sclk(i, x.n, x.r).over(256).over(divider(x))
}

/// How far apart two numbers are.
fn apart(a: u64, b: u64) -> u64
    ensures value { result ≡ apart a b }
    ensures most { result ≤ a + b }
{
    if a < b { b - a } else { a - b }
}

/// The periods of the PLLs' source in a sample, times N.
fn periods(i: Input, x: I2s) -> u64
    requires { HasDividers x }
    ensures value { result ≡ i.m * x.r * 256 * divider x }
    ensures most { result ≤ 57689856 }
{
    i.m as u64 * x.r as u64 * 256 * divider(x) as u64
}

/// How far the sample rate is from the one that is wanted, times the periods of a sample.
fn gap(i: Input, rate: u32, x: I2s) -> u64
    requires rate { rate ≤ 192000 }
    requires dividers { HasDividers x }
    ensures value { result ≡ apart (i.hertz * x.n) (rate * (i.m * x.r * 256 * divider x)) }
    ensures small { result < 2 ^ 50 }
{
    apart(i.hertz * x.n as u64, rate as u64 * periods(i, x))
}

/// How far the sample rate is from the one that is wanted, in hertz.
pub(crate) fn error(i: Input, rate: u32, x: I2s) -> Ratio
    requires rate { rate ≤ 192000 }
    requires dividers { HasDividers x }
    ensures value { result ≡ error_of (over (whole i.hertz) i.m) rate x }
    ensures small { result.num < 2 ^ 50 }
{
    Ratio::whole(gap(i, rate, x))
        .over(i.m as u16)
        .over(x.r as u16)
        .over(256)
        .over(divider(x))
}
