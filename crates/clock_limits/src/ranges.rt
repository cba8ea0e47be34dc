//! The ranges of the nodes over a box.
ghost use Rattle.std.specs.Prelude.{◌≡◌, ◌*◌, ◌<◌, ◌^◌, if◌then◌else◌, length};
ghost use Rattle.res_base.specs.Fraction.{whole, over, times, at_most};
ghost use Rattle.clock_limits.specs.Ranges.{exactly, joined, divided, multiplied, output_range, with_outputs, outputs, has, narrowed, least_of, greatest_of, vco_in_range, vco_range, clk48_range, sysclk_range, hclk_reach, hclk_range, pclk1_range, pclk2_range};
ghost use Rattle.clock_limits.specs.Fair.{HasSize, IsFair, IsSpread};
ghost use Rattle.clock_limits.specs.Runs.{seen};

use crate::runs::{Runs, Span};
use clock_tree::HSI;
use res_base::Ratio;
use res_model::{Facts, Range};

/// The ranges of the nodes over some values of the clock variables, each from its least to its greatest. `hclk_reach` is that of
/// HCLK as the dividers leave it; `hclk` is the wish for it alone, where its reach has the wish, and the buses follow it.
#[derive(Clone, Copy)]
pub struct NodeRanges {
    pub vco_in: Range,
    pub vco: Range,
    pub clk48: Range,
    pub sysclk: Range,
    pub hclk_reach: Range,
    pub hclk: Range,
    pub pclk1: Range,
    pub pclk2: Range,
}

fn exactly(x: Ratio) -> Range
    ensures { result ≡ exactly x }
{
    Range { least: x, most: x }
}

fn lesser(a: Ratio, b: Ratio) -> Ratio
    ensures { result ≡ (if at_most a b then a else b) }
{
    if a.at_most(&b) { a } else { b }
}

fn greater(a: Ratio, b: Ratio) -> Ratio
    ensures { result ≡ (if at_most a b then b else a) }
{
    if a.at_most(&b) { b } else { a }
}

/// The least range that has both.
fn joined(r: &Range, s: &Range) -> Range
    ensures { result ≡ joined r.now s.now }
{
    Range {
        least: lesser(r.least, s.least),
        most: greater(r.most, s.most),
    }
}

/// A range divided by each of these numbers.
#[tactic(auto, using(crate::proofs::SpreadLemmas::least_below_greatest))]
fn divided(r: &Range, by: &[u16]) -> Range
    requires some { 0 < length by.now }
    requires positive { 0 < least_of by.now }
    requires least_small { r.now.least.den * greatest_of by.now < 2 ^ 31 }
    requires most_small { r.now.most.den * least_of by.now < 2 ^ 31 }
    ensures { result ≡ divided r.now by.now }
{
    let by = Span::of(by);
    Range {
        least: r.least.over(by.most),
        most: r.most.over(by.least),
    }
}

/// A range multiplied by each of these numbers.
fn multiplied(r: &Range, by: &[u16]) -> Range
    requires some { 0 < length by.now }
    requires least_small { r.now.least.num * least_of by.now < 2 ^ 63 }
    requires most_small { r.now.most.num * greatest_of by.now < 2 ^ 63 }
    ensures { result ≡ multiplied r.now by.now }
{
    let by = Span::of(by);
    Range {
        least: r.least.times(by.least),
        most: r.most.times(by.most),
    }
}

/// The output of a source, where the range of the PLL's is given.
fn output_range(f: &Facts, pll: &Range, source: u16) -> Range
    requires { f.now.hse_hz < 2 ^ 32 }
    ensures { result ≡ output_range f.now.hse_hz pll.now source }
{
    match source {
        0 => exactly(Ratio::whole(HSI)),
        1 => exactly(Ratio::whole(f.hse_hz)),
        _ => *pll,
    }
}

/// The outputs of these sources.
fn outputs(f: &Facts, pll: &Range, sources: &[u16]) -> Range
    requires some { 0 < length sources.now }
    requires hse { f.now.hse_hz < 2 ^ 32 }
    ensures { result ≡ outputs f.now.hse_hz pll.now sources.now }
{
    let mut range = output_range(f, pll, sources[0]);
    for k in 1..sources.len() {
        range = joined(&range, &output_range(f, pll, sources[k]));
    }
    range
}

/// The input of the PLL.
#[tactic(auto, using(crate::proofs::SizeLemmas::input_size))]
fn pll_input(f: &Facts, sources: &[u16]) -> Range
    requires some { 0 < length sources.now }
    requires hse { f.now.hse_hz < 2 ^ 32 }
    ensures value { result ≡ outputs f.now.hse_hz (exactly (whole 16000000)) sources.now }
    ensures size { HasSize (2 ^ 32) 1 result }
{
    outputs(f, &exactly(Ratio::whole(HSI)), sources)
}

/// The system clock, where the range of the PLL's system output is given.
#[tactic(auto, using(crate::proofs::SizeLemmas::sysclk_size))]
fn sysclk(f: &Facts, pll: &Range, sources: &[u16]) -> Range
    requires some { 0 < length sources.now }
    requires hse { f.now.hse_hz < 2 ^ 32 }
    requires size { HasSize (432 * 2 ^ 32) 504 pll.now }
    ensures value { result ≡ outputs f.now.hse_hz pll.now sources.now }
    ensures size { HasSize (432 * 2 ^ 32) 504 result }
{
    outputs(f, pll, sources)
}

/// Whether a range has this number.
pub(crate) fn has(r: &Range, hertz: u64) -> bool
    ensures { result ≡ has r.now (whole hertz) }
{
    r.least.at_most_whole(hertz) && r.most.at_least_whole(hertz)
}

/// A range that has the wish is narrowed to it.
fn narrowed(wish: Option<u64>, r: &Range) -> Range
    requires size { HasSize (432 * 2 ^ 32) 258048 r.now }
    ensures value { result ≡ narrowed wish r.now }
    ensures size { HasSize (432 * 2 ^ 32) 258048 result }
{
    let Some(hertz) = wish else {
        return *r;
    };
    if has(r, hertz) {
        exactly(Ratio::whole(hertz))
    } else {
        *r
    }
}

impl NodeRanges {
    /// The ranges over these values.
    pub fn over(f: &Facts, r: &Runs) -> NodeRanges
        requires hse { f.now.hse_hz < 2 ^ 32 }
        requires fair { IsFair (seen r.now) }
        ensures vco_in { result.vco_in ≡ vco_in_range f.now (seen r.now) }
        ensures vco { result.vco ≡ vco_range f.now (seen r.now) }
        ensures clk48 { result.clk48 ≡ clk48_range f.now (seen r.now) }
        ensures sysclk { result.sysclk ≡ sysclk_range f.now (seen r.now) }
        ensures hclk_reach { result.hclk_reach ≡ hclk_reach f.now (seen r.now) }
        ensures hclk { result.hclk ≡ hclk_range f.now (seen r.now) }
        ensures pclk1 { result.pclk1 ≡ pclk1_range f.now (seen r.now) }
        ensures pclk2 { result.pclk2 ≡ pclk2_range f.now (seen r.now) }
    {
        let vco_in = divided(&pll_input(f, r.psrc), r.m);
        let vco = multiplied(&vco_in, r.n);
        let sysclk = sysclk(f, &divided(&vco, r.p), r.src);
        let hclk_reach = divided(&sysclk, r.hpre);
        let hclk = narrowed(f.hclk, &hclk_reach);
        NodeRanges {
            vco_in,
            vco,
            clk48: divided(&vco, r.q),
            sysclk,
            hclk_reach,
            hclk,
            pclk1: divided(&hclk, r.ppre1),
            pclk2: divided(&hclk, r.ppre2),
        }
    }
}
