//! The text of a choice with its nodes.
ghost use Rattle.std.specs.Prelude.{◌≡◌, ◌<◌, ◌^◌, ◌++◌, decimal, IfOk, OnOk, string_bytes};
ghost use Rattle.res_model.specs.Clock.{IsInRange, nodes_of};
ghost use Rattle.clock_tree.specs.ClockText.{source_word, source_line, pll_words, pll_line, hse_line, over_word, divider_line, node_line, off_line, floor, pll_node_line, choice_lines, first_nodes, last_nodes, wait_word, supply_line, clock_text};

use crate::tree::{hse_used, nodes, pll_used};
use res_base::{OutOfMemory, Ratio};
use res_model::{ClockChoice, Facts, Nodes, Src, has_over, scale_of_step};
use std::alloc::{AllocError, Global};

/// The name of a source, as texts have it.
pub fn source_word(source: Src) -> &'static str
    ensures { result.now ≡ source_word source }
{
    match source {
        Src::Hsi => "HSI",
        Src::Hse => "HSE",
        Src::Pll => "PLL",
    }
}

#[tactic(auto, unfolding(crate::specs::ClockText::source_line))]
fn source_line(alloc: Global, c: &ClockChoice) -> Result<String, AllocError>
    ensures { IfOk result (λ x. string_bytes x ≡ source_line c.now) }
{
    let source = source_word(c.src);
    format!(in alloc; "source {source}\n")
}

/// Appends a word and a number after it.
fn put_number(alloc: Global, line: &mut String, word: &str, n: u64) -> Result<(), AllocError>
    ensures { OnOk result (string_bytes line.new ≡ string_bytes line.old ++ word.now ++ decimal n) }
{
    line.push_str(word)?;
    let digits = n.to_string(alloc)?;
    line.push_str(digits.as_str())
}

#[tactic(auto, unfolding(crate::specs::ClockText::pll_words))]
fn pll_words(alloc: Global, c: &ClockChoice) -> Result<String, AllocError>
    ensures { IfOk result (λ x. string_bytes x ≡ pll_words c.now) }
{
    let mut line = String::from_str(alloc, "pll ")?;
    line.push_str(source_word(c.psrc))?;
    put_number(alloc, &mut line, " ", u64::from(c.m))?;
    put_number(alloc, &mut line, " ", u64::from(c.n))?;
    put_number(alloc, &mut line, " ", u64::from(c.p))?;
    put_number(alloc, &mut line, " ", u64::from(c.q))?;
    line.push_str("\n")?;
    Ok(line)
}

#[tactic(auto, unfolding(crate::specs::ClockText::pll_line))]
fn pll_line(alloc: Global, f: &Facts, c: &ClockChoice) -> Result<String, AllocError>
    ensures { IfOk result (λ x. string_bytes x ≡ pll_line f.now c.now) }
{
    if pll_used(f, c) {
        pll_words(alloc, c)
    } else {
        String::from_str(alloc, "pll off\n")
    }
}

#[tactic(auto, unfolding(crate::specs::ClockText::hse_line))]
fn hse_line(alloc: Global, f: &Facts, c: &ClockChoice) -> Result<String, AllocError>
    ensures { IfOk result (λ x. string_bytes x ≡ hse_line f.now c.now) }
{
    if !hse_used(f, c) {
        return String::from_str(alloc, "hse off\n");
    }
    let kind = if f.bypass { "bypass" } else { "crystal" };
    let hertz = f.hse_hz;
    format!(in alloc; "hse {kind} {hertz}\n")
}

/// What stands behind the scale.
fn over_word(step: u16) -> &'static str
    ensures { result.now ≡ over_word step }
{
    if has_over(step) { " over\n" } else { "\n" }
}

#[tactic(auto, unfolding(crate::specs::ClockText::divider_line))]
fn divider_line(alloc: Global, c: &ClockChoice) -> Result<String, AllocError>
    ensures { IfOk result (λ x. string_bytes x ≡ divider_line c.now) }
{
    let mut line = String::new(alloc);
    put_number(alloc, &mut line, "ahb ", u64::from(c.hpre))?;
    put_number(alloc, &mut line, " apb1 ", u64::from(c.ppre1))?;
    put_number(alloc, &mut line, " apb2 ", u64::from(c.ppre2))?;
    let step = u16::from(c.vos);
    put_number(alloc, &mut line, " vos ", u64::from(scale_of_step(step)))?;
    line.push_str(over_word(step))?;
    Ok(line)
}

/// A node's name and its hertz.
#[tactic(auto, unfolding(crate::specs::ClockText::node_line))]
fn node_line(alloc: Global, name: &str, hertz: u64) -> Result<String, AllocError>
    ensures { IfOk result (λ s. string_bytes s ≡ node_line name.now hertz) }
{
    let mut line = String::from_str(alloc, name)?;
    put_number(alloc, &mut line, " ", hertz)?;
    line.push_str("\n")?;
    Ok(line)
}

#[tactic(auto, unfolding(crate::specs::ClockText::off_line))]
fn off_line(alloc: Global, name: &str) -> Result<String, AllocError>
    ensures { IfOk result (λ s. string_bytes s ≡ off_line name.now) }
{
    format!(in alloc; "{name} off\n")
}

fn pll_node_line(alloc: Global, name: &str, x: &Option<Ratio>) -> Result<String, AllocError>
    ensures { IfOk result (λ s. string_bytes s ≡ pll_node_line name.now x.now) }
{
    match x {
        None => off_line(alloc, name),
        Some(x) => node_line(alloc, name, x.floor()),
    }
}

/// The lines of the sources and dividers.
#[tactic(auto, unfolding(crate::specs::ClockText::choice_lines))]
fn choice_lines(alloc: Global, f: &Facts, c: &ClockChoice) -> Result<String, AllocError>
    ensures { IfOk result (λ x. string_bytes x ≡ choice_lines f.now c.now) }
{
    let mut out = source_line(alloc, c)?;
    let pll = pll_line(alloc, f, c)?;
    out.push_str(pll.as_str())?;
    let hse = hse_line(alloc, f, c)?;
    out.push_str(hse.as_str())?;
    let dividers = divider_line(alloc, c)?;
    out.push_str(dividers.as_str())?;
    Ok(out)
}

/// The PLL's nodes, SYSCLK and HCLK.
#[tactic(auto, unfolding(crate::specs::ClockText::first_nodes))]
fn first_nodes(alloc: Global, n: &Nodes) -> Result<String, AllocError>
    ensures { IfOk result (λ x. string_bytes x ≡ first_nodes n.now) }
{
    let mut out = pll_node_line(alloc, "VCO_IN", &n.vco_in)?;
    let vco = pll_node_line(alloc, "VCO", &n.vco)?;
    out.push_str(vco.as_str())?;
    let sysclk = node_line(alloc, "SYSCLK", n.sysclk.floor())?;
    out.push_str(sysclk.as_str())?;
    let hclk = node_line(alloc, "HCLK", n.hclk.floor())?;
    out.push_str(hclk.as_str())?;
    Ok(out)
}

/// The buses, their timers and the 48 MHz output.
#[tactic(auto, unfolding(crate::specs::ClockText::last_nodes))]
fn last_nodes(alloc: Global, n: &Nodes) -> Result<String, AllocError>
    ensures { IfOk result (λ x. string_bytes x ≡ last_nodes n.now) }
{
    let mut out = node_line(alloc, "PCLK1", n.pclk1.floor())?;
    let pclk2 = node_line(alloc, "PCLK2", n.pclk2.floor())?;
    out.push_str(pclk2.as_str())?;
    let tim1 = node_line(alloc, "APB1TIM", n.tim1.floor())?;
    out.push_str(tim1.as_str())?;
    let tim2 = node_line(alloc, "APB2TIM", n.tim2.floor())?;
    out.push_str(tim2.as_str())?;
    let clk48 = pll_node_line(alloc, "CLK48", &n.clk48)?;
    out.push_str(clk48.as_str())?;
    Ok(out)
}

fn wait_word(alloc: Global, wait: Option<u8>) -> Result<String, AllocError>
    ensures { IfOk result (λ x. string_bytes x ≡ wait_word wait) }
{
    match wait {
        None => String::from_str(alloc, "none"),
        Some(wait) => wait.to_string(alloc),
    }
}

/// The supply voltage in millivolts and the wait states.
#[tactic(auto, unfolding(crate::specs::ClockText::supply_line))]
fn supply_line(alloc: Global, vdd: u32, wait: &str) -> Result<String, AllocError>
    ensures { IfOk result (λ x. string_bytes x ≡ supply_line vdd wait.now) }
{
    let mut line = String::new(alloc);
    put_number(alloc, &mut line, "vdd ", u64::from(vdd))?;
    line.push_str(" wait ")?;
    line.push_str(wait)?;
    line.push_str("\n")?;
    Ok(line)
}

/// The clock text of a choice, under wait states.
#[tactic(auto, unfolding(crate::specs::ClockText::clock_text))]
pub fn tree_text(
    alloc: Global,
    f: &Facts,
    c: &ClockChoice,
    wait: Option<u8>,
) -> Result<Vec<u8>, OutOfMemory>
    requires choice { IsInRange c.now }
    requires hse { f.now.hse_hz < 2 ^ 32 }
    ensures { IfOk result (λ v. v.items ≡ clock_text f.now c.now wait) }
{
    let n = nodes(f, c);
    let mut out = String::from_str(alloc, "clock\n")?;
    let choice = choice_lines(alloc, f, c)?;
    out.push_str(choice.as_str())?;
    let first = first_nodes(alloc, &n)?;
    out.push_str(first.as_str())?;
    let last = last_nodes(alloc, &n)?;
    out.push_str(last.as_str())?;
    let wait = wait_word(alloc, wait)?;
    let supply = supply_line(alloc, f.vdd, wait.as_str())?;
    out.push_str(supply.as_str())?;
    Ok(out.into_bytes())
}
