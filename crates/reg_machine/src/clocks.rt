//! The clock tree that the registers say, and whether it keeps the limits of a table.
ghost use Rattle.std.specs.Prelude.{◌≡◌, ◌<◌, ◌^◌, if◌then◌else◌, true, None};
ghost use Rattle.reg_map.specs.Fields.{bit_of};
ghost use Rattle.res_model.specs.Clock.{IsInRange};
ghost use Rattle.reg_machine.specs.Words.{IsStored};
ghost use Rattle.reg_machine.specs.Tree.{hpre_value, ppre_value, choice_of, nodes_where, tree_of};
ghost use Rattle.reg_machine.specs.Power.{step_of_power};
ghost use Rattle.reg_machine.specs.Legal.{is_choice_legal, are_within_some, is_vco_legal};
ghost use Rattle.res_model.specs.ClockValues.{source_of};

use crate::power::power_of;
use crate::rules::{PLLON, bit};
use crate::state::State;
use clock_tree::nodes;
use power_flash::{is_within_scale, row_covers};
use reg_map::{Field, field_get};
use res_base::Ratio;
use res_model::{ClockChoice, Facts, Nodes, Src, Tables, speeds_at};

const PLLM: Field = Field { low: 0, width: 6 };

const PLLN: Field = Field { low: 6, width: 9 };

const PLLP: Field = Field { low: 16, width: 2 };

const PLLSRC: Field = Field { low: 22, width: 1 };

const PLLQ: Field = Field { low: 24, width: 4 };

const HPRE: Field = Field { low: 4, width: 4 };

const PPRE1: Field = Field { low: 10, width: 3 };

const PPRE2: Field = Field { low: 13, width: 3 };

/// The nodes for the source in effect; those of the PLL are None where PLLON is 0.
pub fn tree_of(f: &Facts, s: &State) -> Nodes
    requires stored { IsStored s.now }
    requires hse { f.now.hse_hz < 2 ^ 32 }
    ensures { result ≡ tree_of f.now s.now }
{
    let on = bit(PLLON, s.cr);
    let n = all_nodes(f, &choice_of(s, s.source));
    Nodes {
        vco_in: where_on(on, n.vco_in),
        vco: where_on(on, n.vco),
        clk48: where_on(on, n.clk48),
        ..n
    }
}

fn where_on(on: bool, x: Option<Ratio>) -> Option<Ratio>
    ensures { result ≡ (if on then x else None) }
{
    if on { x } else { None }
}

/// The nodes of a choice, those of the PLL also where it is not used.
#[tactic(auto, using(crate::proofs::TreeLemmas::all_used))]
fn all_nodes(f: &Facts, c: &ClockChoice) -> Nodes
    requires choice { IsInRange c.now }
    requires hse { f.now.hse_hz < 2 ^ 32 }
    ensures { result ≡ nodes_where true f.now c.now }
{
    let used = Facts { need48: true, ..*f };
    nodes(&used, c)
}

/// Whether SYSCLK from a source, and what the dividers make of it, keep the limits under the latency in effect.
pub fn is_choice_legal(t: &Tables, f: &Facts, s: &State, source: u32) -> bool
    requires stored { IsStored s.now }
    requires hse { f.now.hse_hz < 2 ^ 32 }
    ensures { result ≡ is_choice_legal t.now f.now s.now.latency (choice_of s.now source) }
{
    let c = choice_of(s, source);
    let n = all_nodes(f, &c);
    let step = u16::from(c.vos);
    let speeds = speeds_at(t.parts(), step);
    n.sysclk.at_most_whole(speeds.sysclk)
        && is_within_scale(t.parts(), &n.hclk, step)
        && row_covers(t, f.vdd, s.latency as u8, &n.hclk)
        && n.pclk1.at_most_whole(speeds.pclk1)
        && n.pclk2.at_most_whole(speeds.pclk2)
}

/// Whether the VCO's input and the VCO are within their bounds, where PLLON is set.
pub fn is_vco_legal(t: &Tables, f: &Facts, s: &State) -> bool
    requires stored { IsStored s.now }
    requires hse { f.now.hse_hz < 2 ^ 32 }
    ensures { result ≡ is_vco_legal t.now f.now (bit_of 24 s.now.cr) (choice_of s.now s.now.source) }
{
    let n = tree_of(f, s);
    let limits = &t.parts().limits;
    are_within_some(limits.vco_in, n.vco_in) && are_within_some(limits.vco, n.vco)
}

fn are_within_some(bounds: (u64, u64), x: Option<Ratio>) -> bool
    ensures { result ≡ are_within_some bounds x }
{
    match x {
        None => true,
        Some(x) => x.at_least_whole(bounds.0) && x.at_most_whole(bounds.1),
    }
}

/// The choice that the fields say, where SYSCLK comes from a source.
fn choice_of(s: &State, source: u32) -> ClockChoice
    requires { IsStored s.now }
    ensures is { result ≡ choice_of s.now source }
    ensures range { IsInRange result }
{
    fields_of(s, source)
}

fn fields_of(s: &State, source: u32) -> ClockChoice
    ensures { result ≡ choice_of s.now source }
{
    ClockChoice {
        src: source_of(source),
        psrc: source_of(field_get(s.pllcfgr, PLLSRC)),
        hpre: hpre_value(field_get(s.cfgr, HPRE)),
        p: 2 * (field_get(s.pllcfgr, PLLP) as u8 + 1),
        m: field_get(s.pllcfgr, PLLM) as u8,
        n: field_get(s.pllcfgr, PLLN) as u16,
        q: field_get(s.pllcfgr, PLLQ) as u8,
        ppre1: ppre_value(field_get(s.cfgr, PPRE1)),
        ppre2: ppre_value(field_get(s.cfgr, PPRE2)),
        vos: step_of_power(s),
    }
}

/// The number of the power step in effect, or 0.
fn step_of_power(s: &State) -> u8
    ensures { result ≡ step_of_power s.now }
{
    match power_of(s) {
        Some(step) => step,
        None => 0,
    }
}

/// The source that a field of RCC_CFGR or RCC_PLLCFGR means.
pub fn source_of(field: u32) -> Src
    ensures { result ≡ source_of field }
{
    Src::of(u64::from(field))
}

fn hpre_value(code: u32) -> u16
    requires { code < 16 }
    ensures { result ≡ hpre_value code }
{
    match code {
        8 => 2,
        9 => 4,
        10 => 8,
        11 => 16,
        12 => 64,
        13 => 128,
        14 => 256,
        15 => 512,
        _ => 1,
    }
}

fn ppre_value(code: u32) -> u8
    requires { code < 8 }
    ensures { result ≡ ppre_value code }
{
    match code {
        4 => 2,
        5 => 4,
        6 => 8,
        7 => 16,
        _ => 1,
    }
}
