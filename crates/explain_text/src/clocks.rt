//! What a choice changes of the clock variables.
ghost use Rattle.std.specs.Prelude.{◌≡◌, ◌<◌, ◌++◌, IfOk, OnOk, string_bytes};
ghost use Rattle.explain_text.specs.Changes.{bus_changes, change_line, home_value, number_change, over_word, pll_changes, source_change, source_changes, step_change, step_text};
ghost use Rattle.res_model.specs.ClockValues.{has_over, scale_of_step};

use clock_tree::source_word;
use res_model::{ClockChoice, Home, Src};
use std::alloc::{AllocError, Global};

#[tactic(auto, unfolding(crate::specs::Changes::change_line))]
fn change_line(alloc: Global, word: &str, home: &str, value: &str) -> Result<String, AllocError>
    ensures { IfOk result (λ x. string_bytes x ≡ change_line word.now home.now value.now) }
{
    let mut line = String::from_str(alloc, word)?;
    line.push_str(" changes from ")?;
    line.push_str(home)?;
    line.push_str(" to ")?;
    line.push_str(value)?;
    line.push_str("\n")?;
    Ok(line)
}

#[tactic(auto, unfolding(crate::specs::Changes::source_change))]
fn source_change(alloc: Global, word: &str, home: u64, source: Src) -> Result<String, AllocError>
    ensures { IfOk result (λ x. string_bytes x ≡ source_change word.now home source) }
{
    if home == u64::from(source.number()) {
        return Ok(String::new(alloc));
    }
    change_line(alloc, word, source_word(Src::of(home)), source_word(source))
}

#[tactic(auto, unfolding(crate::specs::Changes::number_change))]
fn number_change(alloc: Global, word: &str, home: u64, value: u64) -> Result<String, AllocError>
    ensures { IfOk result (λ x. string_bytes x ≡ number_change word.now home value) }
{
    if home == value {
        return Ok(String::new(alloc));
    }
    let home = home.to_string(alloc)?;
    let value = value.to_string(alloc)?;
    change_line(alloc, word, home.as_str(), value.as_str())
}

fn has_over(step: u64) -> bool
    ensures { result ≡ has_over step }
{
    step == 4 || step == 5
}

fn scale_of_step(step: u64) -> u64
    ensures { result ≡ scale_of_step step }
{
    match step {
        4 => 1,
        5 => 2,
        _ => step,
    }
}

fn over_word(step: u64) -> &'static str
    ensures { result.now ≡ over_word step }
{
    if has_over(step) { " over" } else { "" }
}

/// A power step: its scale, and whether over-drive is on.
fn step_text(alloc: Global, step: u64) -> Result<String, AllocError>
    ensures { IfOk result (λ x. string_bytes x ≡ step_text step) }
{
    let mut text = scale_of_step(step).to_string(alloc)?;
    text.push_str(over_word(step))?;
    Ok(text)
}

#[tactic(auto, unfolding(crate::specs::Changes::step_change))]
fn step_change(alloc: Global, home: u64, value: u64) -> Result<String, AllocError>
    ensures { IfOk result (λ x. string_bytes x ≡ step_change home value) }
{
    if home == value {
        return Ok(String::new(alloc));
    }
    let home = step_text(alloc, home)?;
    let value = step_text(alloc, value)?;
    change_line(alloc, "voltage scale", home.as_str(), value.as_str())
}

/// Appends what a number changes.
fn put_change(
    alloc: Global,
    out: &mut String,
    word: &str,
    home: u64,
    value: u64,
) -> Result<(), AllocError>
    ensures { OnOk result (string_bytes out.new ≡ string_bytes out.old ++ number_change word.now home value) }
{
    let line = number_change(alloc, word, home, value)?;
    out.push_str(line.as_str())
}

/// Appends what the power step changes.
fn put_step(alloc: Global, out: &mut String, home: u64, value: u64) -> Result<(), AllocError>
    ensures { OnOk result (string_bytes out.new ≡ string_bytes out.old ++ step_change home value) }
{
    let line = step_change(alloc, home, value)?;
    out.push_str(line.as_str())
}

/// The home of the clock variable of this number.
#[tactic(auto, unfolding(crate::specs::Changes::home_value))]
fn home_value(homes: &[Home; 10], k: usize) -> u64
    requires { k < 10 }
    ensures { result ≡ home_value homes.now k }
{
    homes[k].value
}

#[tactic(auto, unfolding(crate::specs::Changes::source_changes))]
fn source_changes(alloc: Global, homes: &[Home; 10], c: &ClockChoice) -> Result<String, AllocError>
    ensures { IfOk result (λ x. string_bytes x ≡ source_changes homes.now c.now) }
{
    let mut out = source_change(alloc, "clock source", home_value(homes, 0), c.src)?;
    let pll = source_change(alloc, "PLL source", home_value(homes, 1), c.psrc)?;
    out.push_str(pll.as_str())?;
    Ok(out)
}

#[tactic(auto, unfolding(crate::specs::Changes::pll_changes))]
fn pll_changes(alloc: Global, homes: &[Home; 10], c: &ClockChoice) -> Result<String, AllocError>
    ensures { IfOk result (λ x. string_bytes x ≡ pll_changes homes.now c.now) }
{
    let mut out = number_change(
        alloc,
        "AHB divider",
        home_value(homes, 2),
        u64::from(c.hpre),
    )?;
    put_change(
        alloc,
        &mut out,
        "PLLP",
        home_value(homes, 3),
        u64::from(c.p),
    )?;
    put_change(
        alloc,
        &mut out,
        "PLLM",
        home_value(homes, 4),
        u64::from(c.m),
    )?;
    put_change(
        alloc,
        &mut out,
        "PLLN",
        home_value(homes, 5),
        u64::from(c.n),
    )?;
    put_change(
        alloc,
        &mut out,
        "PLLQ",
        home_value(homes, 6),
        u64::from(c.q),
    )?;
    Ok(out)
}

#[tactic(auto, unfolding(crate::specs::Changes::bus_changes))]
fn bus_changes(alloc: Global, homes: &[Home; 10], c: &ClockChoice) -> Result<String, AllocError>
    ensures { IfOk result (λ x. string_bytes x ≡ bus_changes homes.now c.now) }
{
    let mut out = number_change(
        alloc,
        "APB1 divider",
        home_value(homes, 7),
        u64::from(c.ppre1),
    )?;
    put_change(
        alloc,
        &mut out,
        "APB2 divider",
        home_value(homes, 8),
        u64::from(c.ppre2),
    )?;
    put_step(alloc, &mut out, home_value(homes, 9), u64::from(c.vos))?;
    Ok(out)
}

/// The lines of the clock variables that leave their homes.
pub(crate) fn clock_changes(
    alloc: Global,
    homes: &[Home; 10],
    c: &ClockChoice,
) -> Result<String, AllocError>
    ensures { IfOk result (λ x. string_bytes x ≡ source_changes homes.now c.now ++ pll_changes homes.now c.now ++ bus_changes homes.now c.now) }
{
    let mut out = source_changes(alloc, homes, c)?;
    let pll = pll_changes(alloc, homes, c)?;
    out.push_str(pll.as_str())?;
    let buses = bus_changes(alloc, homes, c)?;
    out.push_str(buses.as_str())?;
    Ok(out)
}
