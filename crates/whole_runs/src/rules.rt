//! What each rule forbids and what it lets pass, from reset. The expected answers are read off RM0090.
//!
//! A row is a function that answers whether all of its cases are as expected, and tests hold rows alone: a test that holds
//! what a step answers is proved some eight times as slowly.
use crate::runs::{cfgr_behind, told};
use crate::settings::{bare, crystal, over};
use init_gen::Setting;
use reg_machine::{Answer, Op, Rule, Stepped, Timeout};
use reg_map::{GpioReg, Reg};
use std::alloc::Global;

const NO: Answer = Answer {
    hse: false,
    pll: false,
    latency: false,
    switch: false,
    over: false,
    over_switch: false,
};

const YES: Answer = Answer {
    hse: true,
    pll: true,
    latency: true,
    switch: true,
    over: true,
    over_switch: true,
};

const HSEON: u32 = 0x0001_0000;

const HSERDY: u32 = 0x0002_0000;

const HSEBYP: u32 = 0x0004_0000;

const PLLON: u32 = 0x0100_0000;

const PWREN: u32 = 0x1000_0000;

const VOS: u32 = 0x0000_4000;

const ODEN: u32 = 0x0001_0000;

const ODSWEN: u32 = 0x0002_0000;

/// VOS of a part with over-drive.
const TWO_BITS: u32 = 0x0000_C000;

const GPIOB: u32 = 0x0000_0002;

/// MODER of port B.
const MODER: Reg = Reg::Gpio {
    port: 1,
    kind: GpioReg::Moder,
};

const fn write(reg: Reg, value: u32) -> Op {
    Op::Write { reg, value }
}

const fn set(reg: Reg, bits: u32) -> Op {
    Op::Modify {
        reg,
        clear: 0,
        set: bits,
    }
}

const fn clear(reg: Reg, bits: u32) -> Op {
    Op::Modify {
        reg,
        clear: bits,
        set: 0,
    }
}

const fn read(reg: Reg) -> Op {
    Op::Read { reg }
}

const fn hse_comes(polls: u32) -> Op {
    Op::Await {
        reg: Reg::Cr,
        mask: HSERDY,
        want: HSERDY,
        polls,
        name: Timeout::Hse,
    }
}

const fn forbidden(rule: Rule) -> Stepped {
    Stepped::Forbidden { rule }
}

const WENT: Stepped = Stepped::Went;

const WAITING: Stepped = Stepped::Waiting;

/// Whether the last of some accesses answers this from reset, with the target of a setting.
fn is(alloc: Global, s: &Setting, before: &[Op], a: Answer, op: Op, expected: Stepped) -> bool {
    match told(alloc, s, before, a, op) {
        Some(found) => found == expected,
        None => false,
    }
}

fn first_is(alloc: Global, op: Op, expected: Stepped) -> bool {
    is(alloc, &crystal(), [].as_slice(), NO, op, expected)
}

fn first_of_bare_is(alloc: Global, op: Op, expected: Stepped) -> bool {
    is(alloc, &bare(), [].as_slice(), NO, op, expected)
}

fn then_is(alloc: Global, before: &[Op], op: Op, expected: Stepped) -> bool {
    is(alloc, &crystal(), before, NO, op, expected)
}

/// On a part with over-drive.
fn over_then_is(alloc: Global, before: &[Op], a: Answer, op: Op, expected: Stepped) -> bool {
    is(alloc, &over(), before, a, op, expected)
}

/// Where each flag comes as soon as it may.
fn then_prompt_is(alloc: Global, before: &[Op], op: Op, expected: Stepped) -> bool {
    is(alloc, &crystal(), before, YES, op, expected)
}

/// RCC_CFGR where each flag comes as soon as it may.
fn cfgr_is(alloc: Global, ops: &[Op], expected: u32) -> bool {
    match cfgr_behind(alloc, &crystal(), ops, YES) {
        Some(found) => found == expected,
        None => false,
    }
}

fn rules_have_their_numbers() -> bool {
    Rule::HsiOffInUse.number() == 1
        && Rule::PllcfgrWithPllOn.number() == 7
        && Rule::AwaitUnlawful.number() == 18
        && Rule::PwrCsrWritten.number() == 21
}

fn hsi_stays_on_while_it_is_in_effect(alloc: Global) -> bool {
    let off = clear(Reg::Cr, 1);
    let switch = [set(Reg::Cr, HSEON), set(Reg::Cfgr, 1)];
    first_is(alloc, off, forbidden(Rule::HsiOffInUse))
        // HSE is
        && then_prompt_is(alloc, switch.as_slice(), off, WENT)
}

fn the_bypass_stays_while_hse_is_on(alloc: Global) -> bool {
    let rule = forbidden(Rule::BypassChangedWithHseOn);
    let bypass = set(Reg::Cr, HSEBYP);
    then_is(alloc, [set(Reg::Cr, HSEON)].as_slice(), bypass, rule)
        // while HSE is off
        && first_is(alloc, bypass, WENT)
}

fn hse_is_as_the_target_has_it(alloc: Global) -> bool {
    let unlike = forbidden(Rule::HseOnUnlikeTarget);
    let on = set(Reg::Cr, HSEON);
    // no HSE
    first_of_bare_is(alloc, on, unlike)
        // a crystal
        && first_is(alloc, set(Reg::Cr, HSEON + HSEBYP), unlike)
        && first_is(alloc, on, WENT)
}

fn hse_stays_on_while_it_is_asked_for(alloc: Global) -> bool {
    let rule = forbidden(Rule::HseOffInUse);
    let on = set(Reg::Cr, HSEON);
    let off = clear(Reg::Cr, HSEON);
    let switch = [on, set(Reg::Cfgr, 1)];
    then_prompt_is(alloc, switch.as_slice(), off, rule)
        // not in use
        && then_is(alloc, [on].as_slice(), off, WENT)
}

fn the_pll_wants_a_source_that_is_ready(alloc: Global) -> bool {
    let from_hse = write(Reg::Pllcfgr, 0x2440_3010);
    let on = set(Reg::Cr, PLLON);
    // HSE is off
    then_is(
        alloc,
        [from_hse].as_slice(),
        on,
        forbidden(Rule::PllOnUnfit),
    )
        // from HSI
        && first_is(alloc, on, WENT)
}

fn the_pll_stays_on_while_it_is_asked_for(alloc: Global) -> bool {
    let rule = forbidden(Rule::PllOffInUseOrOtherBit);
    let on = set(Reg::Cr, PLLON);
    let off = clear(Reg::Cr, PLLON);
    let switch = [on, set(Reg::Cfgr, 2)];
    then_prompt_is(alloc, switch.as_slice(), off, rule)
        // not asked for
        && then_is(alloc, [on].as_slice(), off, WENT)
        // CSSON
        && first_is(alloc, set(Reg::Cr, 0x0008_0000), rule)
}

#[test]
fn rcc_cr(rt: HostRuntime) {
    assert!(rt; rules_have_their_numbers());
    assert!(rt; hsi_stays_on_while_it_is_in_effect(rt.alloc()));
    assert!(rt; the_bypass_stays_while_hse_is_on(rt.alloc()));
    assert!(rt; hse_is_as_the_target_has_it(rt.alloc()));
    assert!(rt; hse_stays_on_while_it_is_asked_for(rt.alloc()));
    assert!(rt; the_pll_wants_a_source_that_is_ready(rt.alloc()));
    assert!(rt; the_pll_stays_on_while_it_is_asked_for(rt.alloc()));
}

/// The PLL runs on the word that is there: writing that very word is forbidden too.
fn pllcfgr_stays_while_the_pll_is_on(alloc: Global) -> bool {
    let rule = forbidden(Rule::PllcfgrWithPllOn);
    let word = write(Reg::Pllcfgr, 0x2400_3010);
    then_is(alloc, [set(Reg::Cr, PLLON)].as_slice(), word, rule)
        // off
        && first_is(alloc, word, WENT)
}

fn m_and_q_are_bounded(alloc: Global) -> bool {
    let rule = forbidden(Rule::PllcfgrOutOfRange);
    // M 1
    first_is(alloc, write(Reg::Pllcfgr, 0x2400_3001), rule)
        // Q 1
        && first_is(alloc, write(Reg::Pllcfgr, 0x2100_3010), rule)
        // M 2, N 50, Q 2
        && first_is(alloc, write(Reg::Pllcfgr, 0x2200_0C82), WENT)
}

fn n_is_bounded(alloc: Global) -> bool {
    let rule = forbidden(Rule::PllcfgrOutOfRange);
    // N 49
    first_is(alloc, write(Reg::Pllcfgr, 0x2400_0C50), rule)
        // N 433
        && first_is(alloc, write(Reg::Pllcfgr, 0x2400_6C50), rule)
        // N 432
        && first_is(alloc, write(Reg::Pllcfgr, 0x2200_6C02), WENT)
}

#[test]
fn rcc_pllcfgr(rt: HostRuntime) {
    assert!(rt; pllcfgr_stays_while_the_pll_is_on(rt.alloc()));
    assert!(rt; m_and_q_are_bounded(rt.alloc()));
    assert!(rt; n_is_bounded(rt.alloc()));
}

fn sw_wants_a_source_that_is_ready(alloc: Global) -> bool {
    let rule = forbidden(Rule::SwitchToUnready);
    let on = [set(Reg::Cr, HSEON)];
    let to_hse = set(Reg::Cfgr, 1);
    // no source has 3
    first_is(alloc, set(Reg::Cfgr, 3), rule)
        // HSERDY is 0
        && then_is(alloc, on.as_slice(), to_hse, rule)
        && then_prompt_is(alloc, on.as_slice(), to_hse, WENT)
}

fn the_rest_of_cfgr_stays(alloc: Global) -> bool {
    let rule = forbidden(Rule::CfgrOtherBit);
    // bit 8
    first_is(alloc, set(Reg::Cfgr, 0x0000_0100), rule)
        // RTCPRE
        && first_is(alloc, set(Reg::Cfgr, 0x0001_0000), rule)
        // its fields
        && first_is(alloc, set(Reg::Cfgr, 0x0000_FCFC), WENT)
}

fn a_switch_comes_when_it_is_answered(alloc: Global) -> bool {
    let ops = [set(Reg::Cr, HSEON), set(Reg::Cfgr, 1), read(Reg::Cr)];
    // SWS is HSI, and then HSE
    cfgr_is(alloc, &ops[..2], 1) && cfgr_is(alloc, ops.as_slice(), 5)
}

#[test]
fn rcc_cfgr(rt: HostRuntime) {
    assert!(rt; sw_wants_a_source_that_is_ready(rt.alloc()));
    assert!(rt; the_rest_of_cfgr_stays(rt.alloc()));
    assert!(rt; a_switch_comes_when_it_is_answered(rt.alloc()));
}

fn the_enables_of_ports_stay(alloc: Global) -> bool {
    let rule = forbidden(Rule::PortDisabledOrOtherBit);
    let on = [set(Reg::Ahb1enr, GPIOB)];
    then_is(alloc, on.as_slice(), clear(Reg::Ahb1enr, GPIOB), rule)
        // bit 9
        && first_is(alloc, set(Reg::Ahb1enr, 0x0000_0200), rule)
        // GPIOI
        && first_is(alloc, set(Reg::Ahb1enr, 0x0000_0100), WENT)
}

fn a_port_wants_its_enable_read(alloc: Global) -> bool {
    let rule = forbidden(Rule::GpioBeforeEnable);
    let on = [set(Reg::Ahb1enr, GPIOB), read(Reg::Ahb1enr)];
    let other = [on[0], read(Reg::Apb1enr)];
    let moder = write(MODER, 0x0000_0280);
    // off, not read, another enable read
    first_is(alloc, moder, rule)
        && then_is(alloc, &on[..1], moder, rule)
        && then_is(alloc, other.as_slice(), moder, rule)
        && then_is(alloc, on.as_slice(), moder, WENT)
}

#[test]
fn ports(rt: HostRuntime) {
    assert!(rt; the_enables_of_ports_stay(rt.alloc()));
    assert!(rt; a_port_wants_its_enable_read(rt.alloc()));
}

fn the_enable_of_pwr_stays(alloc: Global) -> bool {
    let rule = forbidden(Rule::PowerDisabledOrOtherBit);
    let on = set(Reg::Apb1enr, PWREN);
    then_is(alloc, [on].as_slice(), clear(Reg::Apb1enr, PWREN), rule)
        // TIM2EN
        && first_is(alloc, set(Reg::Apb1enr, 1), rule)
        && first_is(alloc, on, WENT)
}

fn pwr_wants_its_enable_read(alloc: Global) -> bool {
    let rule = forbidden(Rule::PwrCrBeforeEnable);
    let on = [set(Reg::Apb1enr, PWREN), read(Reg::Apb1enr)];
    let scale = write(Reg::PwrCr, 0);
    // off, and not read
    first_is(alloc, scale, rule)
        && then_is(alloc, &on[..1], scale, rule)
        && then_is(alloc, on.as_slice(), scale, WENT)
}

fn the_scale_stays_while_the_pll_is_on(alloc: Global) -> bool {
    let rule = forbidden(Rule::ScaleWithPllOnOrOtherBit);
    let power = set(Reg::Apb1enr, PWREN);
    let on = [set(Reg::Cr, PLLON), power, read(Reg::Apb1enr)];
    then_is(alloc, on.as_slice(), clear(Reg::PwrCr, VOS), rule)
        // LPDS
        && then_is(alloc, &on[1..], set(Reg::PwrCr, 1), rule)
        // the same
        && then_is(alloc, on.as_slice(), write(Reg::PwrCr, VOS), WENT)
}

/// PWR is there, and the PLL runs from HSI.
fn with_pll() -> [Op; 3] {
    [
        set(Reg::Apb1enr, PWREN),
        read(Reg::Apb1enr),
        set(Reg::Cr, PLLON),
    ]
}

fn a_part_of_version_1_has_no_over_drive(alloc: Global) -> bool {
    let rule = forbidden(Rule::ScaleWithPllOnOrOtherBit);
    then_prompt_is(alloc, with_pll().as_slice(), set(Reg::PwrCr, ODEN), rule)
}

fn a_scale_of_two_bits_is_not_0(alloc: Global) -> bool {
    let rule = forbidden(Rule::ScaleWithPllOnOrOtherBit);
    let on = with_pll();
    let third = write(Reg::PwrCr, VOS);
    over_then_is(alloc, &on[..2], NO, clear(Reg::PwrCr, TWO_BITS), rule)
        && over_then_is(alloc, &on[..2], NO, third, WENT)
        // the PLL is on
        && over_then_is(alloc, on.as_slice(), NO, third, rule)
}

fn pwr_csr_is_read_alone(alloc: Global) -> bool {
    let rule = forbidden(Rule::PwrCsrWritten);
    first_is(alloc, write(Reg::PwrCsr, 0), rule)
        && over_then_is(alloc, [].as_slice(), NO, set(Reg::PwrCsr, 1), rule)
        && first_is(alloc, read(Reg::PwrCsr), WENT)
}

#[test]
fn power(rt: HostRuntime) {
    assert!(rt; the_enable_of_pwr_stays(rt.alloc()));
    assert!(rt; pwr_wants_its_enable_read(rt.alloc()));
    assert!(rt; the_scale_stays_while_the_pll_is_on(rt.alloc()));
    assert!(rt; a_part_of_version_1_has_no_over_drive(rt.alloc()));
    assert!(rt; a_scale_of_two_bits_is_not_0(rt.alloc()));
    assert!(rt; pwr_csr_is_read_alone(rt.alloc()));
}

/// PWR is there, the PLL runs from HSI, and over-drive is started.
fn with_over() -> [Op; 4] {
    let on = with_pll();
    [on[0], on[1], on[2], set(Reg::PwrCr, ODEN)]
}

fn over_drive_wants_the_pll_and_another_scale_than_3(alloc: Global) -> bool {
    let rule = forbidden(Rule::OverOnUnfit);
    let on = with_pll();
    let start = set(Reg::PwrCr, ODEN);
    let third = [on[0], on[1], write(Reg::PwrCr, VOS), on[2]];
    // no PLL, the PLL, and scale 3
    over_then_is(alloc, &on[..2], NO, start, rule)
        && over_then_is(alloc, on.as_slice(), NO, start, WENT)
        && over_then_is(alloc, third.as_slice(), NO, start, rule)
}

fn over_drive_stays(alloc: Global) -> bool {
    let rule = forbidden(Rule::OverOnUnfit);
    over_then_is(
        alloc,
        with_over().as_slice(),
        NO,
        clear(Reg::PwrCr, ODEN),
        rule,
    )
}

fn the_switch_to_over_drive_wants_it_ready(alloc: Global) -> bool {
    let rule = forbidden(Rule::OverSwitchUnfit);
    let started = with_over();
    let switch = set(Reg::PwrCr, ODSWEN);
    over_then_is(alloc, started.as_slice(), NO, switch, rule)
        && over_then_is(alloc, started.as_slice(), YES, switch, WENT)
}

fn the_pll_stays_on_beside_over_drive(alloc: Global) -> bool {
    let rule = forbidden(Rule::PllOffInUseOrOtherBit);
    let off = clear(Reg::Cr, PLLON);
    over_then_is(alloc, with_over().as_slice(), NO, off, rule)
        && over_then_is(alloc, with_pll().as_slice(), NO, off, WENT)
}

#[test]
fn over_drive(rt: HostRuntime) {
    assert!(rt; over_drive_wants_the_pll_and_another_scale_than_3(rt.alloc()));
    assert!(rt; over_drive_stays(rt.alloc()));
    assert!(rt; the_switch_to_over_drive_wants_it_ready(rt.alloc()));
    assert!(rt; the_pll_stays_on_beside_over_drive(rt.alloc()));
}

fn acr_is_written_whole(alloc: Global) -> bool {
    let rule = forbidden(Rule::AcrModifiedOrOtherBit);
    // a modify
    first_is(alloc, set(Reg::Acr, 5), rule)
        // ICRST
        && first_is(alloc, write(Reg::Acr, 0x0000_0800), rule)
        && first_is(alloc, write(Reg::Acr, 0x0000_0705), WENT)
}

fn prefetch_wants_a_supply(alloc: Global) -> bool {
    let rule = forbidden(Rule::PrefetchAtLowSupply);
    first_of_bare_is(alloc, write(Reg::Acr, 0x0000_0100), rule)
        // the caches
        && first_of_bare_is(alloc, write(Reg::Acr, 0x0000_0605), WENT)
}

#[test]
fn flash(rt: HostRuntime) {
    assert!(rt; acr_is_written_whole(rt.alloc()));
    assert!(rt; prefetch_wants_a_supply(rt.alloc()));
}

fn an_await_wants_polls_and_the_oscillator_on(alloc: Global) -> bool {
    let rule = forbidden(Rule::AwaitUnlawful);
    let on = [set(Reg::Cr, HSEON)];
    // HSE is off
    first_is(alloc, hse_comes(10), rule)
        // no polls
        && then_is(alloc, on.as_slice(), hse_comes(0), rule)
        && then_prompt_is(alloc, on.as_slice(), hse_comes(1), WENT)
}

/// At the third poll of three.
fn an_oscillator_that_never_comes_times_out(alloc: Global) -> bool {
    let hse = Stepped::TimedOut { name: Timeout::Hse };
    let ops = [set(Reg::Cr, HSEON), hse_comes(3), hse_comes(3)];
    then_is(alloc, &ops[..1], hse_comes(3), WAITING)
        && then_is(alloc, &ops[..2], hse_comes(3), WAITING)
        && then_is(alloc, ops.as_slice(), hse_comes(3), hse)
}

/// Behind a poll, a second one is the last of two, but not where something was read between them.
fn a_read_sets_the_polls_back(alloc: Global) -> bool {
    let hse = Stepped::TimedOut { name: Timeout::Hse };
    let ops = [set(Reg::Cr, HSEON), hse_comes(3), read(Reg::Cr)];
    then_is(alloc, &ops[..2], hse_comes(2), hse)
        && then_is(alloc, ops.as_slice(), hse_comes(2), WAITING)
}

#[test]
fn awaits(rt: HostRuntime) {
    assert!(rt; an_await_wants_polls_and_the_oscillator_on(rt.alloc()));
    assert!(rt; an_oscillator_that_never_comes_times_out(rt.alloc()));
    assert!(rt; a_read_sets_the_polls_back(rt.alloc()));
}
