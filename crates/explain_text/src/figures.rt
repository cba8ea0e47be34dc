//! By how much a limit is missed.
ghost use Rattle.std.specs.Prelude.{◌≡◌, IfOk, string_bytes};
ghost use Rattle.res_model.specs.Limits.{hse_bounds};
ghost use Rattle.explain_text.specs.Figures.{bounds_text, figures_by, flash_figures, greatest_needed, hse_figures, kind_word, least_allowed, no_range, no_signal, possible, possible_within, row_figures, wished};

use crate::hertz::{hertz_text, put_number, range_text};
use crate::power::{
    hertz_or, last_row, pclk1_most, pclk2_most, range_at, scales_most, sysclk_most,
};
use clock_limits::NodeRanges;
use res_base::Ratio;
use res_model::{Facts, Limit, Range, TableParts};
use std::alloc::{AllocError, Global};

/// What the 48 MHz output must be, in hertz.
const MHZ_48: u64 = 48_000_000;

#[tactic(auto, unfolding(crate::specs::Figures::possible))]
fn possible(alloc: Global, r: &Range) -> Result<String, AllocError>
    ensures { IfOk result (λ x. string_bytes x ≡ possible r.now) }
{
    let mut text = String::from_str(alloc, "possible ")?;
    let range = range_text(alloc, r)?;
    text.push_str(range.as_str())?;
    Ok(text)
}

#[tactic(auto, unfolding(crate::specs::Figures::bounds_text))]
fn bounds_text(alloc: Global, bounds: (u64, u64)) -> Result<String, AllocError>
    ensures { IfOk result (λ x. string_bytes x ≡ bounds_text bounds) }
{
    let mut text = String::new(alloc);
    put_number(alloc, &mut text, ", allowed ", bounds.0)?;
    put_number(alloc, &mut text, " to ", bounds.1)?;
    Ok(text)
}

#[tactic(auto, unfolding(crate::specs::Figures::possible_within))]
fn possible_within(alloc: Global, r: &Range, bounds: (u64, u64)) -> Result<String, AllocError>
    ensures { IfOk result (λ x. string_bytes x ≡ possible_within r.now bounds) }
{
    let mut text = possible(alloc, r)?;
    let bounds = bounds_text(alloc, bounds)?;
    text.push_str(bounds.as_str())?;
    Ok(text)
}

#[tactic(auto, unfolding(crate::specs::Figures::least_allowed))]
fn least_allowed(alloc: Global, x: &Ratio, most: u64) -> Result<String, AllocError>
    ensures { IfOk result (λ s. string_bytes s ≡ least_allowed x.now most) }
{
    let mut text = String::from_str(alloc, "least ")?;
    let hertz = hertz_text(alloc, x)?;
    text.push_str(hertz.as_str())?;
    put_number(alloc, &mut text, ", allowed ", most)?;
    Ok(text)
}

#[tactic(auto, unfolding(crate::specs::Figures::greatest_needed))]
fn greatest_needed(alloc: Global, x: &Ratio, floor: u64) -> Result<String, AllocError>
    ensures { IfOk result (λ s. string_bytes s ≡ greatest_needed x.now floor) }
{
    let mut text = String::from_str(alloc, "greatest ")?;
    let hertz = hertz_text(alloc, x)?;
    text.push_str(hertz.as_str())?;
    put_number(alloc, &mut text, ", needed ", floor)?;
    Ok(text)
}

#[tactic(auto, unfolding(crate::specs::Figures::wished))]
fn wished(alloc: Global, r: &Range, wish: Option<u64>) -> Result<String, AllocError>
    ensures { IfOk result (λ x. string_bytes x ≡ wished r.now wish) }
{
    let mut text = possible(alloc, r)?;
    put_number(alloc, &mut text, ", wished ", hertz_or(wish))?;
    Ok(text)
}

#[tactic(auto, unfolding(crate::specs::Figures::no_signal))]
fn no_signal(alloc: Global, t: &TableParts) -> Result<String, AllocError>
    ensures { IfOk result (λ x. string_bytes x ≡ no_signal t.now) }
{
    let mut text = String::from_str(alloc, "no signal ")?;
    text.push_str(t.hse_in.as_str())?;
    Ok(text)
}

fn kind_word(bypass: bool) -> &'static str
    ensures { result.now ≡ kind_word bypass }
{
    if bypass { "bypass " } else { "crystal " }
}

/// The frequencies that the HSE may have.
fn hse_bounds(t: &TableParts, f: &Facts) -> (u64, u64)
    ensures { result ≡ hse_bounds t.now f.now }
{
    if f.bypass {
        t.limits.bypass
    } else {
        t.limits.crystal
    }
}

#[tactic(auto, unfolding(crate::specs::Figures::hse_figures))]
fn hse_figures(alloc: Global, t: &TableParts, f: &Facts) -> Result<String, AllocError>
    ensures { IfOk result (λ x. string_bytes x ≡ hse_figures t.now f.now) }
{
    if !f.osc_in {
        return no_signal(alloc, t);
    }
    let mut text = String::new(alloc);
    put_number(alloc, &mut text, kind_word(f.bypass), f.hse_hz)?;
    let bounds = bounds_text(alloc, hse_bounds(t, f))?;
    text.push_str(bounds.as_str())?;
    Ok(text)
}

#[tactic(auto, unfolding(crate::specs::Figures::no_range))]
fn no_range(alloc: Global, vdd: u32) -> Result<String, AllocError>
    ensures { IfOk result (λ x. string_bytes x ≡ no_range vdd) }
{
    let mut text = String::new(alloc);
    put_number(alloc, &mut text, "no range with ", u64::from(vdd))?;
    text.push_str(" mV")?;
    Ok(text)
}

#[tactic(auto, unfolding(crate::specs::Figures::row_figures))]
fn row_figures(alloc: Global, vdd: u32, hclk: &Ratio, row: u64) -> Result<String, AllocError>
    ensures { IfOk result (λ x. string_bytes x ≡ row_figures vdd hclk.now row) }
{
    let mut text = least_allowed(alloc, hclk, row)?;
    put_number(alloc, &mut text, " at ", u64::from(vdd))?;
    text.push_str(" mV")?;
    Ok(text)
}

fn flash_figures(
    alloc: Global,
    t: &TableParts,
    vdd: u32,
    hclk: &Ratio,
) -> Result<String, AllocError>
    ensures { IfOk result (λ x. string_bytes x ≡ flash_figures t.now vdd hclk.now) }
{
    match range_at(t, vdd) {
        None => no_range(alloc, vdd),
        Some(range) => row_figures(alloc, vdd, hclk, last_row(range)),
    }
}

/// The figures of a limit, where the nodes have these ranges and there are these power steps.
pub(crate) fn figures_by(
    alloc: Global,
    t: &TableParts,
    f: &Facts,
    steps: &[u16],
    r: &NodeRanges,
    limit: Limit,
) -> Result<String, AllocError>
    ensures { IfOk result (λ x. string_bytes x ≡ figures_by t.now f.now steps.now r.now limit) }
{
    match limit {
        Limit::Hse => hse_figures(alloc, t, f),
        Limit::VcoIn => possible_within(alloc, &r.vco_in, t.limits.vco_in),
        Limit::Vco => possible_within(alloc, &r.vco, t.limits.vco),
        Limit::Sysclk => least_allowed(alloc, &r.sysclk.least, sysclk_most(t, steps)),
        Limit::Hclk => least_allowed(alloc, &r.hclk.least, scales_most(t, steps)),
        Limit::Pclk1 => least_allowed(alloc, &r.pclk1.least, pclk1_most(t, steps)),
        Limit::Pclk2 => least_allowed(alloc, &r.pclk2.least, pclk2_most(t, steps)),
        Limit::Exact48 => possible(alloc, &r.clk48),
        Limit::Most48 => least_allowed(alloc, &r.clk48.least, MHZ_48),
        Limit::Floor => greatest_needed(alloc, &r.hclk.most, f.floor),
        Limit::FlashRow => flash_figures(alloc, t, f.vdd, &r.hclk.least),
        Limit::HclkWish => wished(alloc, &r.hclk, f.hclk),
        Limit::Pclk1Wish => wished(alloc, &r.pclk1, f.pclk1),
        Limit::Pclk2Wish => wished(alloc, &r.pclk2, f.pclk2),
        Limit::OverDrive => Ok(String::new(alloc)),
    }
}
