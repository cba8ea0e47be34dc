//! The codes of the fields.
ghost use Rattle.std.specs.Prelude.{◌≡◌, ℕ, ◌<◌, ◌≤◌, ◌/◌, ◌-◌};
ghost use Rattle.reg_machine.specs.Power.{vos_mask};
ghost use Rattle.init_gen.specs.Codes.{p_code, hpre_code, ppre_code, oscillator_of, vos_code, vos_word, codes_of};
ghost use Rattle.res_model.specs.ClockValues.{source_number};

use crate::setting::{Codes, Oscillator};
use clock_tree::{hse_used, pll_used};
use reg_machine::vos_mask;
use res_model::{ClockChoice, Facts, Src, has_over, scale_of_step};

/// What the fields of a part take for a choice under these wait states, by the version of its table.
pub fn codes_of(version: u8, f: &Facts, c: &ClockChoice, wait: u8) -> Codes
    ensures { result ≡ codes_of version f.now c.now wait }
{
    let step = u16::from(c.vos);
    let scale = scale_of_step(step);
    Codes {
        step: u32::from(step),
        scale: u32::from(scale),
        vos_clear: vos_mask(version),
        vos_set: vos_word(version, scale),
        over: has_over(step),
        oscillator: oscillator_of(hse_used(f, c), f.bypass),
        pll: pll_used(f, c),
        psrc: source_number(c.psrc),
        src: source_number(c.src),
        m: u32::from(c.m),
        n: u32::from(c.n),
        pcode: p_code(c.p),
        q: u32::from(c.q),
        hcode: hpre_code(c.hpre),
        code1: ppre_code(c.ppre1),
        code2: ppre_code(c.ppre2),
        wait: u32::from(wait),
    }
}

/// The value of VOS for a scale.
fn vos_code(version: u8, scale: u16) -> u32
    ensures is { result ≡ vos_code version scale }
    ensures small { result ≤ 4 }
{
    let most: u32 = if version == 1 { 2 } else { 4 };
    most.saturating_sub(u32::from(scale))
}

fn vos_word(version: u8, scale: u16) -> u32
    ensures { result ≡ vos_word version scale }
{
    vos_code(version, scale) * 0x4000
}

fn oscillator_of(used: bool, bypass: bool) -> Oscillator
    ensures { result ≡ oscillator_of used bypass }
{
    if !used {
        Oscillator::Off
    } else if bypass {
        Oscillator::Bypass
    } else {
        Oscillator::Crystal
    }
}

fn source_number(source: Src) -> u32
    ensures { result ≡ source_number source }
{
    u32::from(source.number())
}

fn p_code(p: u8) -> u32
    ensures { result ≡ p_code p }
{
    (u32::from(p) / 2).saturating_sub(1)
}

fn hpre_code(divider: u16) -> u32
    ensures { result ≡ hpre_code divider }
{
    match divider {
        1 => 0,
        2 => 8,
        4 => 9,
        8 => 10,
        16 => 11,
        64 => 12,
        128 => 13,
        256 => 14,
        _ => 15,
    }
}

fn ppre_code(divider: u8) -> u32
    ensures { result ≡ ppre_code divider }
{
    match divider {
        1 => 0,
        2 => 4,
        4 => 5,
        8 => 6,
        _ => 7,
    }
}
