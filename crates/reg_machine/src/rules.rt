//! The rules that forbid a value in a register, after RM0090.
ghost use Rattle.std.specs.Prelude.{if◌then◌else◌, ◌≡◌, ℕ, ◌%◌, ◌/◌, ◌<◌, Some, None};
ghost use Rattle.reg_map.specs.Fields.{bit_of};
ghost use Rattle.reg_map.specs.Registers.{IsRegister};
ghost use Rattle.reg_machine.specs.Words.{is_ready, in_use, is_whole, pll_source};
ghost use Rattle.reg_machine.specs.Power.{vos_mask, pwr_others, scale_of};
ghost use Rattle.reg_machine.specs.Rules.{differ, sets, clears, changes, hsi_off_in_use, bypass_changed_with_hse_on, hse_on_unlike_target, hse_off_in_use, pll_on_unfit, pll_in_effect, pll_off_in_use_or_other_bit, pllcfgr_with_pll_on, pllcfgr_out_of_range, switch_to_unready, cfgr_other_bit, port_disabled_or_other_bit, power_disabled_or_other_bit, pwr_cr_before_enable, scale_with_pll_on_or_other_bit, over_on_unfit, over_switch_unfit, acr_other_bit, prefetch_at_low_supply, gpio_before_enable, either, bars_cr, bars_pwr_cr, bars};

use crate::op::Rule;
use crate::power::{pwr_others, scale_of, vos_mask};
use crate::state::State;
use reg_map::Reg;

const HSION: u32 = 0;

pub const HSEON: u32 = 16;

const HSEBYP: u32 = 18;

pub const PLLON: u32 = 24;

const PWREN: u32 = 28;

pub const ODEN: u32 = 16;

pub const ODSWEN: u32 = 17;

const PRFTEN: u32 = 8;

/// The least rule that forbids a value in a register.
pub fn barred(s: &State, r: Reg, value: u32) -> Option<Rule>
    requires { IsRegister r }
    ensures { result ≡ bars s.now r value }
{
    match r {
        Reg::Cr => barred_cr(s, value),
        Reg::Pllcfgr => either(
            Rule::PllcfgrWithPllOn,
            pllcfgr_with_pll_on(s),
            Rule::PllcfgrOutOfRange,
            pllcfgr_out_of_range(value),
        ),
        Reg::Cfgr => either(
            Rule::SwitchToUnready,
            switch_to_unready(s, value),
            Rule::CfgrOtherBit,
            cfgr_other_bit(s, value),
        ),
        Reg::Ahb1enr => alone(
            Rule::PortDisabledOrOtherBit,
            port_disabled_or_other_bit(s, value),
        ),
        Reg::Apb1enr => alone(
            Rule::PowerDisabledOrOtherBit,
            power_disabled_or_other_bit(s, value),
        ),
        Reg::Acr => either(
            Rule::AcrModifiedOrOtherBit,
            acr_other_bit(s, value),
            Rule::PrefetchAtLowSupply,
            prefetch_at_low_supply(s, value),
        ),
        Reg::PwrCr => barred_pwr_cr(s, value),
        Reg::PwrCsr => Some(Rule::PwrCsrWritten),
        Reg::Gpio { port, kind: _ } => alone(Rule::GpioBeforeEnable, gpio_before_enable(s, port)),
    }
}

fn alone(rule: Rule, broken: bool) -> Option<Rule>
    ensures { result ≡ (if broken then Some rule else None) }
{
    if broken { Some(rule) } else { None }
}

fn either(low: Rule, by_low: bool, high: Rule, by_high: bool) -> Option<Rule>
    ensures { result ≡ either low by_low high by_high }
{
    if by_low {
        Some(low)
    } else {
        alone(high, by_high)
    }
}

fn barred_cr(s: &State, value: u32) -> Option<Rule>
    ensures { result ≡ bars_cr s.now value }
{
    if hsi_off_in_use(s, value) {
        Some(Rule::HsiOffInUse)
    } else if bypass_changed_with_hse_on(s, value) {
        Some(Rule::BypassChangedWithHseOn)
    } else if hse_on_unlike_target(s, value) {
        Some(Rule::HseOnUnlikeTarget)
    } else if hse_off_in_use(s, value) {
        Some(Rule::HseOffInUse)
    } else if pll_on_unfit(s, value) {
        Some(Rule::PllOnUnfit)
    } else if pll_off_in_use_or_other_bit(s, value) {
        Some(Rule::PllOffInUseOrOtherBit)
    } else {
        None
    }
}

fn barred_pwr_cr(s: &State, value: u32) -> Option<Rule>
    ensures { result ≡ bars_pwr_cr s.now value }
{
    if pwr_cr_before_enable(s) {
        Some(Rule::PwrCrBeforeEnable)
    } else if scale_with_pll_on_or_other_bit(s, value) {
        Some(Rule::ScaleWithPllOnOrOtherBit)
    } else if over_on_unfit(s, value) {
        Some(Rule::OverOnUnfit)
    } else if over_switch_unfit(s, value) {
        Some(Rule::OverSwitchUnfit)
    } else {
        None
    }
}

fn hsi_off_in_use(s: &State, value: u32) -> bool
    ensures { result ≡ hsi_off_in_use s.now value }
{
    clears(HSION, s.cr, value) && in_use(s, 0)
}

fn bypass_changed_with_hse_on(s: &State, value: u32) -> bool
    ensures { result ≡ bypass_changed_with_hse_on s.now value }
{
    bit(HSEON, s.cr) && differ(bit(HSEBYP, s.cr), bit(HSEBYP, value))
}

fn hse_on_unlike_target(s: &State, value: u32) -> bool
    ensures { result ≡ hse_on_unlike_target s.now value }
{
    sets(HSEON, s.cr, value) && (!s.osc_in || differ(bit(HSEBYP, value), s.bypass))
}

fn hse_off_in_use(s: &State, value: u32) -> bool
    ensures { result ≡ hse_off_in_use s.now value }
{
    clears(HSEON, s.cr, value) && in_use(s, 1)
}

fn pll_on_unfit(s: &State, value: u32) -> bool
    ensures { result ≡ pll_on_unfit s.now value }
{
    sets(PLLON, s.cr, value) && (!is_ready(s, pll_source(s.pllcfgr)) || !is_whole(s.pllcfgr))
}

/// Whether the PLL is in effect or asked for.
fn pll_in_effect(s: &State) -> bool
    ensures { result ≡ pll_in_effect s.now }
{
    s.source == 2 || s.cfgr % 4 == 2
}

fn pll_off_in_use_or_other_bit(s: &State, value: u32) -> bool
    ensures { result ≡ pll_off_in_use_or_other_bit s.now value }
{
    (clears(PLLON, s.cr, value) && (pll_in_effect(s) || bit(ODEN, s.pwr_cr)))
        || changes(0xFCF8_FFFC, s.cr, value)
}

fn pllcfgr_with_pll_on(s: &State) -> bool
    ensures { result ≡ pllcfgr_with_pll_on s.now }
{
    bit(PLLON, s.cr)
}

fn pllcfgr_out_of_range(value: u32) -> bool
    ensures { result ≡ pllcfgr_out_of_range value }
{
    !is_whole(value)
}

fn switch_to_unready(s: &State, value: u32) -> bool
    ensures { result ≡ switch_to_unready s.now value }
{
    !is_ready(s, value % 4)
}

fn cfgr_other_bit(s: &State, value: u32) -> bool
    ensures { result ≡ cfgr_other_bit s.now value }
{
    changes(0xFFFF_0300, s.cfgr, value)
}

fn port_disabled_or_other_bit(s: &State, value: u32) -> bool
    ensures { result ≡ port_disabled_or_other_bit s.now value }
{
    !(s.ahb1enr / 512 == value / 512 && (s.ahb1enr | value) == value)
}

fn power_disabled_or_other_bit(s: &State, value: u32) -> bool
    ensures { result ≡ power_disabled_or_other_bit s.now value }
{
    clears(PWREN, s.apb1enr, value) || changes(0xEFFF_FFFF, s.apb1enr, value)
}

fn pwr_cr_before_enable(s: &State) -> bool
    ensures { result ≡ pwr_cr_before_enable s.now }
{
    !(bit(PWREN, s.apb1enr) && bit(PWREN, s.apb_read))
}

fn scale_with_pll_on_or_other_bit(s: &State, value: u32) -> bool
    ensures { result ≡ scale_with_pll_on_or_other_bit s.now value }
{
    (bit(PLLON, s.cr) && changes(vos_mask(s.version), s.pwr_cr, value))
        || 3 < scale_of(s.version, value)
        || changes(pwr_others(s.version), s.pwr_cr, value)
}

fn over_on_unfit(s: &State, value: u32) -> bool
    ensures { result ≡ over_on_unfit s.now value }
{
    (sets(ODEN, s.pwr_cr, value)
        && (!bit(PLLON, s.cr) || pll_in_effect(s) || scale_of(s.version, s.pwr_cr) == 3))
        || clears(ODEN, s.pwr_cr, value)
}

fn over_switch_unfit(s: &State, value: u32) -> bool
    ensures { result ≡ over_switch_unfit s.now value }
{
    (sets(ODSWEN, s.pwr_cr, value) && (!s.over_ready || pll_in_effect(s)))
        || clears(ODSWEN, s.pwr_cr, value)
}

fn acr_other_bit(s: &State, value: u32) -> bool
    ensures { result ≡ acr_other_bit s.now value }
{
    value & 0xFFFF_F8F8 & !s.acr != 0
}

fn prefetch_at_low_supply(s: &State, value: u32) -> bool
    ensures { result ≡ prefetch_at_low_supply s.now value }
{
    sets(PRFTEN, s.acr, value) && !s.prefetch
}

fn gpio_before_enable(s: &State, port: u8) -> bool
    requires { port < 9 }
    ensures { result ≡ gpio_before_enable s.now port }
{
    !(bit(u32::from(port), s.ahb1enr) && bit(u32::from(port), s.ahb_read))
}

fn is_ready(s: &State, source: u32) -> bool
    ensures { result ≡ is_ready s.now source }
{
    if source == 0 {
        true
    } else if source == 1 {
        s.hse_ready
    } else {
        source == 2 && s.pll_ready
    }
}

fn in_use(s: &State, source: u32) -> bool
    ensures { result ≡ in_use s.now source }
{
    s.source == source
        || s.cfgr % 4 == source
        || (bit(PLLON, s.cr) && pll_source(s.pllcfgr) == source)
}

fn is_whole(word: u32) -> bool
    ensures { result ≡ is_whole word }
{
    let n = (word >> 6) % 512;
    2 <= (word >> 0) % 64 && 50 <= n && n <= 432 && 2 <= (word >> 24) % 16
}

fn pll_source(word: u32) -> u32
    ensures { result ≡ pll_source word }
{
    (word >> 22) % 2
}

fn changes(mask: u32, old: u32, value: u32) -> bool
    ensures { result ≡ changes mask old value }
{
    old & mask != value & mask
}

fn sets(k: u32, old: u32, value: u32) -> bool
    requires { k < 32 }
    ensures { result ≡ sets k old value }
{
    !bit(k, old) && bit(k, value)
}

fn clears(k: u32, old: u32, value: u32) -> bool
    requires { k < 32 }
    ensures { result ≡ clears k old value }
{
    bit(k, old) && !bit(k, value)
}

fn differ(a: bool, b: bool) -> bool
    ensures { result ≡ differ a b }
{
    if a { !b } else { b }
}

pub fn bit(k: u32, word: u32) -> bool
    requires { k < 32 }
    ensures { result ≡ bit_of k word }
{
    (word >> k) % 2 == 1
}
