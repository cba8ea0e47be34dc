//! The input of the PLLI2S, which it shares with the main PLL.
ghost use Rattle.std.specs.Prelude.{◌≡◌, ◌<◌, ◌≤◌, ◌^◌};
ghost use Rattle.res_base.specs.Fraction.{over, whole};
ghost use Rattle.res_model.specs.Clock.{IsInRange, output, vco_in_of};

use clock_tree::HSI;
use res_base::Ratio;
use res_model::{ClockChoice, Facts, Src};

/// The frequency of the PLLs' source in hertz, over M.
#[derive(Clone, Copy, Debug)]
pub(crate) struct Input {
    pub hertz: u64,
    pub m: u8,
    ghost hertz_small: { hertz < 2 ^ 32 },
    ghost m_some: { 1 ≤ m },
    ghost m_small: { m ≤ 63 },
}

/// The frequency of an oscillator in hertz.
fn hertz_of(f: &Facts, source: Src) -> u64
    requires { f.now.hse_hz < 2 ^ 32 }
    ensures value { whole result ≡ output f.now.hse_hz (whole 16000000) source }
    ensures small { result < 2 ^ 32 }
{
    match source {
        Src::Hse => f.hse_hz,
        Src::Hsi | Src::Pll => HSI,
    }
}

/// The input of the PLLs where the homes are chosen.
pub(crate) fn input_of(f: &Facts, home: &ClockChoice) -> Input
    requires home { IsInRange home.now }
    requires hse { f.now.hse_hz < 2 ^ 32 }
    ensures { over (whole result.hertz) result.m ≡ vco_in_of f.now home.now }
{
    Input {
        hertz: hertz_of(f, home.psrc),
        m: home.m,
    }
}

/// The input as a fraction of hertz.
pub(crate) fn fraction(i: Input) -> Ratio
    ensures { result ≡ over (whole i.hertz) i.m }
{
    Ratio::whole(i.hertz).over(i.m as u16)
}
