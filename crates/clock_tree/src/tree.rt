//! The nodes (RM0090, RCC).
ghost use Rattle.std.specs.Prelude.{◌≡◌, ◌<◌, ◌*◌, ◌^◌};
ghost use Rattle.res_base.specs.Fraction.{whole};
ghost use Rattle.res_model.specs.Clock.{IsInRange, hse_used, pll_used, output, pll_input, timer, where_used, nodes_of};
ghost use Rattle.clock_tree.specs.Sizes.{HasSize};

use res_base::Ratio;
use res_model::{ClockChoice, Facts, Nodes, Src};

/// The frequency of the internal oscillator in hertz.
pub const HSI: u64 = 16_000_000;

/// Whether the PLL is used: as the system clock, or for its 48 MHz output.
pub fn pll_used(f: &Facts, c: &ClockChoice) -> bool
    ensures { result ≡ pll_used f.now c.now }
{
    c.src == Src::Pll || f.need48
}

/// Whether the HSE is used: as the system clock, or by the PLL.
pub fn hse_used(f: &Facts, c: &ClockChoice) -> bool
    ensures { result ≡ hse_used f.now c.now }
{
    c.src == Src::Hse || (pll_used(f, c) && c.psrc == Src::Hse)
}

/// The output of a source, where that of the PLL is given.
fn output(f: &Facts, pll: Ratio, source: Src) -> Ratio
    requires hse { f.now.hse_hz < 2 ^ 32 }
    requires size { HasSize (432 * 2 ^ 32) 504 pll }
    ensures value { result ≡ output f.now.hse_hz pll source }
    ensures size { HasSize (432 * 2 ^ 32) 504 result }
{
    match source {
        Src::Hsi => Ratio::whole(HSI),
        Src::Hse => Ratio::whole(f.hse_hz),
        Src::Pll => pll,
    }
}

/// The input of the PLL.
fn pll_input(f: &Facts, source: Src) -> Ratio
    requires hse { f.now.hse_hz < 2 ^ 32 }
    ensures value { result ≡ output f.now.hse_hz (whole 16000000) source }
    ensures size { HasSize (2 ^ 32) 1 result }
{
    match source {
        Src::Hse => Ratio::whole(f.hse_hz),
        Src::Hsi | Src::Pll => Ratio::whole(HSI),
    }
}

/// The clock of a bus's timers.
fn timer(divider: u8, pclk: Ratio) -> Ratio
    requires { pclk.num * 2 < 2 ^ 63 }
    ensures { result ≡ timer divider pclk }
{
    if divider == 1 { pclk } else { pclk.times(2) }
}

fn where_used(used: bool, x: Ratio) -> Option<Ratio>
    ensures { result ≡ where_used used x }
{
    if used { Some(x) } else { None }
}

/// The nodes of a choice.
#[tactic(auto, unfolding(res_model::specs::Clock::nodes_of))]
pub fn nodes(f: &Facts, c: &ClockChoice) -> Nodes
    requires choice { IsInRange c.now }
    requires hse { f.now.hse_hz < 2 ^ 32 }
    ensures { result ≡ nodes_of f.now c.now }
{
    let used = pll_used(f, c);
    let vco_in = pll_input(f, c.psrc).over(u16::from(c.m));
    let vco = vco_in.times(c.n);
    let sysclk = output(f, vco.over(u16::from(c.p)), c.src);
    let hclk = sysclk.over(c.hpre);
    let pclk1 = hclk.over(u16::from(c.ppre1));
    let pclk2 = hclk.over(u16::from(c.ppre2));
    Nodes {
        vco_in: where_used(used, vco_in),
        vco: where_used(used, vco),
        sysclk,
        hclk,
        pclk1,
        pclk2,
        tim1: timer(c.ppre1, pclk1),
        tim2: timer(c.ppre2, pclk2),
        clk48: where_used(used, vco.over(u16::from(c.q))),
    }
}
