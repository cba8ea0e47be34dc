//! Whole runs. Expected values are read off RM0090 and the data sheet, or worked out by hand. A row is a function that
//! answers whether all is as expected, and tests hold rows alone.
ghost use Rattle.std.specs.Prelude.{◌<◌};

use crate::runs::{Ran, Seen, after, after_flags, begins, set_up};
use crate::settings::{board, clock_pin, over, third_scale};
use init_gen::Setting;
use reg_machine::{Answer, Op, Stepped, Timeout};
use reg_map::{GpioReg, Reg};
use res_model::{Mode, Src};
use std::alloc::Global;

const NO: Answer = Answer {
    hse: false,
    pll: false,
    latency: false,
    switch: false,
    over: false,
    over_switch: false,
};

const YES: Answer = Answer {
    hse: true,
    pll: true,
    latency: true,
    switch: true,
    over: true,
    over_switch: true,
};

fn write(reg: Reg, value: u32) -> Op {
    Op::Write { reg, value }
}

fn modify(reg: Reg, clear: u32, set: u32) -> Op {
    Op::Modify { reg, clear, set }
}

fn read(reg: Reg) -> Op {
    Op::Read { reg }
}

fn wait(reg: Reg, mask: u32, want: u32, polls: u32, name: Timeout) -> Op {
    Op::Await {
        reg,
        mask,
        want,
        polls,
        name,
    }
}

fn port_b(kind: GpioReg) -> Reg {
    Reg::Gpio { port: 1, kind }
}

/// From a crystal of 8 MHz to 168 MHz, and then the enables of ports A and D.
fn board_clock() -> [Op; 12] {
    [
        modify(Reg::Cr, 0, 0x0001_0000),
        wait(Reg::Cr, 0x0002_0000, 0x0002_0000, 100_000, Timeout::Hse),
        write(Reg::Pllcfgr, 0x2740_5408),
        modify(Reg::Cr, 0, 0x0100_0000),
        wait(Reg::Cr, 0x0200_0000, 0x0200_0000, 10_000, Timeout::Pll),
        write(Reg::Acr, 0x0000_0705),
        wait(Reg::Acr, 0x0000_0007, 5, 1_000, Timeout::Latency),
        modify(Reg::Cfgr, 0x0000_FCF0, 0x0000_9400),
        modify(Reg::Cfgr, 0x0000_0003, 0x0000_0002),
        wait(Reg::Cfgr, 0x0000_000C, 8, 100_000, Timeout::Switch),
        modify(Reg::Ahb1enr, 0, 0x0000_0009),
        read(Reg::Ahb1enr),
    ]
}

/// HSI as it is, and PB3 from AF0 to AF5.
fn clock_pin_accesses() -> [Op; 10] {
    [
        write(Reg::Acr, 0x0000_0700),
        wait(Reg::Acr, 0x0000_0007, 0, 1_000, Timeout::Latency),
        modify(Reg::Cfgr, 0x0000_FCF0, 0),
        modify(Reg::Ahb1enr, 0, 0x0000_0002),
        read(Reg::Ahb1enr),
        modify(port_b(GpioReg::Pupdr), 0x0000_00C0, 0),
        modify(port_b(GpioReg::Ospeedr), 0x0000_00C0, 0),
        modify(port_b(GpioReg::Otyper), 0x0000_0008, 0),
        modify(port_b(GpioReg::Afrl), 0x0000_F000, 0x0000_5000),
        modify(port_b(GpioReg::Moder), 0x0000_00C0, 0x0000_0080),
    ]
}

/// From HSI to 180 MHz at scale 1 with over-drive, and no pin.
fn over_accesses() -> [Op; 14] {
    [
        modify(Reg::Apb1enr, 0, 0x1000_0000),
        read(Reg::Apb1enr),
        write(Reg::Pllcfgr, 0x2400_5A10),
        modify(Reg::Cr, 0, 0x0100_0000),
        wait(Reg::Cr, 0x0200_0000, 0x0200_0000, 10_000, Timeout::Pll),
        modify(Reg::PwrCr, 0, 0x0001_0000),
        wait(Reg::PwrCsr, 0x0001_0000, 0x0001_0000, 10_000, Timeout::Over),
        modify(Reg::PwrCr, 0, 0x0002_0000),
        wait(
            Reg::PwrCsr,
            0x0002_0000,
            0x0002_0000,
            10_000,
            Timeout::OverSwitch,
        ),
        write(Reg::Acr, 0x0000_0705),
        wait(Reg::Acr, 0x0000_0007, 5, 1_000, Timeout::Latency),
        modify(Reg::Cfgr, 0x0000_FCF0, 0x0000_9400),
        modify(Reg::Cfgr, 0x0000_0003, 0x0000_0002),
        wait(Reg::Cfgr, 0x0000_000C, 8, 100_000, Timeout::Switch),
    ]
}

/// USB_DM, SWCLK, PD15 and OSC_IN.
const PLACES: [u8; 4] = [11, 14, 63, 112];

/// Whether a run ended so after so many steps, with each state legal.
fn ran_to(seen: &Seen, last: Stepped, steps: u32) -> bool {
    seen.ran
        == Ran {
            last,
            steps,
            legal: true,
        }
}

/// Two alternate functions and four outputs.
fn the_board_has_its_accesses(alloc: Global) -> bool {
    match begins(alloc, &board(), board_clock().as_slice()) {
        Some(found) => found == (12 + 2 * 5 + 4 * 4, true),
        None => false,
    }
}

fn over_drive_comes_before_the_latency(alloc: Global) -> bool {
    match begins(alloc, &over(), over_accesses().as_slice()) {
        Some(found) => found == (14, true),
        None => false,
    }
}

fn scale_3_is_1_of_two_bits(alloc: Global) -> bool {
    let first = [
        modify(Reg::Apb1enr, 0, 0x1000_0000),
        read(Reg::Apb1enr),
        modify(Reg::PwrCr, 0x0000_C000, 0x0000_4000),
    ];
    match begins(alloc, &third_scale(), first.as_slice()) {
        Some((_, found)) => found,
        None => false,
    }
}

fn pb3_goes_from_af0_to_af5(alloc: Global) -> bool {
    match begins(alloc, &clock_pin(), clock_pin_accesses().as_slice()) {
        Some(found) => found == (10, true),
        None => false,
    }
}

#[test]
fn settings_have_their_accesses(rt: HostRuntime) {
    assert!(rt; the_board_has_its_accesses(rt.alloc()));
    assert!(rt; over_drive_comes_before_the_latency(rt.alloc()));
    assert!(rt; scale_3_is_1_of_two_bits(rt.alloc()));
    assert!(rt; pb3_goes_from_af0_to_af5(rt.alloc()));
}

/// Each flag at its first poll.
fn over_drive_comes_to_180_mhz(alloc: Global) -> bool {
    let Some(seen) = set_up(alloc, &over(), YES, PLACES) else {
        return false;
    };
    let hertz = [180_000_000, 180_000_000, 45_000_000, 90_000_000];
    ran_to(&seen, Stepped::Went, 14)
        && seen.power == Some(4)
        && &seen.hertz[..4] == hertz.as_slice()
}

/// The six accesses before, each flag at its first poll, and the last poll.
fn over_drive_that_never_comes_ends_the_run(alloc: Global) -> bool {
    let none = Answer { over: false, ..YES };
    let Some(seen) = set_up(alloc, &over(), none, PLACES) else {
        return false;
    };
    let last = Stepped::TimedOut {
        name: Timeout::Over,
    };
    ran_to(&seen, last, 6 + 10_000) && seen.source == Src::Hsi && seen.power == Some(1)
}

fn a_switch_to_over_drive_that_never_comes_ends_the_run(alloc: Global) -> bool {
    let none = Answer {
        over_switch: false,
        ..YES
    };
    let Some(seen) = set_up(alloc, &over(), none, PLACES) else {
        return false;
    };
    let last = Stepped::TimedOut {
        name: Timeout::OverSwitch,
    };
    ran_to(&seen, last, 8 + 10_000) && seen.source == Src::Hsi
}

fn scale_3_is_in_effect(alloc: Global) -> bool {
    match set_up(alloc, &third_scale(), NO, PLACES) {
        Some(seen) => seen.ran.legal && seen.power == Some(3),
        None => false,
    }
}

#[test]
fn parts_with_over_drive(rt: HostRuntime) {
    assert!(rt; over_drive_comes_to_180_mhz(rt.alloc()));
    assert!(rt; over_drive_that_never_comes_ends_the_run(rt.alloc()));
    assert!(rt; a_switch_to_over_drive_that_never_comes_ends_the_run(rt.alloc()));
    assert!(rt; scale_3_is_in_effect(rt.alloc()));
}

/// HSEON, and the last poll. SWS says HSI.
fn a_crystal_that_never_starts_ends_the_run(alloc: Global) -> bool {
    let none = Answer { hse: false, ..YES };
    let Some(seen) = set_up(alloc, &board(), none, PLACES) else {
        return false;
    };
    let last = Stepped::TimedOut { name: Timeout::Hse };
    ran_to(&seen, last, 1 + 100_000)
        && seen.cfgr == 0
        && seen.source == Src::Hsi
        && seen.hertz[0] == 16_000_000
}

/// The buses and their timers; then the PLL's input, its VCO and the 48 MHz clock.
fn has_board_clocks(seen: &Seen) -> bool {
    seen.hertz
        == [
            168_000_000,
            168_000_000,
            42_000_000,
            84_000_000,
            84_000_000,
            168_000_000,
            1_000_000,
            336_000_000,
            48_000_000,
        ]
}

/// Each flag at the first poll. SWS says the PLL, and OSC_IN is as at reset.
fn the_board_comes_to_168_mhz(alloc: Global) -> bool {
    let Some(seen) = set_up(alloc, &board(), YES, PLACES) else {
        return false;
    };
    ran_to(&seen, Stepped::Went, 38)
        && seen.cfgr == 0x0000_940A
        && seen.source == Src::Pll
        && seen.latency == 5
        && has_board_clocks(&seen)
        && seen.modes == [Mode::Alt(10), Mode::Alt(0), Mode::Output, Mode::Input]
}

/// PB3 is JTDO, and then SPI1_SCK.
fn pb3_becomes_spi1_sck(alloc: Global) -> bool {
    let Some(before) = after(alloc, &clock_pin(), [].as_slice(), YES, [19; 4]) else {
        return false;
    };
    let Some(seen) = set_up(alloc, &clock_pin(), YES, [19; 4]) else {
        return false;
    };
    before.modes[0] == Mode::Alt(0)
        && ran_to(&seen, Stepped::Went, 10)
        && seen.modes[0] == Mode::Alt(5)
}

/// The latency in effect where no flag comes at a write of ACR, and then those that are answered.
fn latency_behind(alloc: Global, a: Answer) -> Option<u8> {
    let asked = [write(Reg::Acr, 0x0000_0705)];
    Some(after_flags(alloc, &board(), asked.as_slice(), a)?.latency)
}

fn a_latency_comes_when_it_is_answered(alloc: Global) -> bool {
    latency_behind(alloc, NO) == Some(0) && latency_behind(alloc, YES) == Some(5)
}

#[test]
fn the_board_and_a_pin(rt: HostRuntime) {
    assert!(rt; a_crystal_that_never_starts_ends_the_run(rt.alloc()));
    assert!(rt; the_board_comes_to_168_mhz(rt.alloc()));
    assert!(rt; pb3_becomes_spi1_sck(rt.alloc()));
    assert!(rt; a_latency_comes_when_it_is_answered(rt.alloc()));
}

/// Whether accesses from reset go to their end with the target of a setting, and whether each state is then legal.
fn goes(alloc: Global, s: &Setting, ops: &[Op], a: Answer, legal: bool) -> bool {
    match after(alloc, s, ops, a, PLACES) {
        Some(seen) => seen.ran.last == Stepped::Went && seen.ran.legal == legal,
        None => false,
    }
}

/// Behind the PLL and the dividers, SW asks for 168 MHz.
fn no_wait_state_is_too_few_for_168_mhz(alloc: Global) -> bool {
    let ops = board_clock();
    let right = [
        ops[0], ops[1], ops[2], ops[3], ops[4], ops[5], ops[6], ops[7], ops[8],
    ];
    let early = [ops[0], ops[1], ops[2], ops[3], ops[4], ops[7], ops[8]];
    goes(alloc, &board(), right.as_slice(), YES, true)
        && goes(alloc, &board(), early.as_slice(), YES, false)
}

/// As without the wait for ODSWRDY: at 180 MHz and scale 1 alone.
fn without_over_drive_180_mhz_is_too_fast(alloc: Global) -> bool {
    let ops = over_accesses();
    let early = [ops[2], ops[3], ops[4], ops[9], ops[10], ops[11], ops[12]];
    goes(alloc, &over(), ops.as_slice(), YES, true)
        && goes(alloc, &over(), early.as_slice(), YES, false)
}

/// PA11 is USB_DM, at AF10.
fn a_pin_has_its_function_before_its_mode(alloc: Global) -> bool {
    let enable = modify(Reg::Ahb1enr, 0, 0x0000_0001);
    let function = Reg::Gpio {
        port: 0,
        kind: GpioReg::Afrh,
    };
    let function = modify(function, 0x0000_F000, 0x0000_A000);
    let mode = Reg::Gpio {
        port: 0,
        kind: GpioReg::Moder,
    };
    let mode = modify(mode, 0x00C0_0000, 0x0080_0000);
    let right = [enable, read(Reg::Ahb1enr), function, mode];
    let wrong = [enable, read(Reg::Ahb1enr), mode, function];
    goes(alloc, &board(), right.as_slice(), NO, true)
        && goes(alloc, &board(), wrong.as_slice(), NO, false)
}

/// From HSI by 16, N 100 makes a VCO of 100 MHz, the least of the table, and N 50 one of 50 MHz, which is legal while the
/// PLL is off.
fn a_vco_is_in_range_where_the_pll_is_on(alloc: Global) -> bool {
    let on = modify(Reg::Cr, 0, 0x0100_0000);
    let least = [write(Reg::Pllcfgr, 0x2400_1910), on];
    let half = [write(Reg::Pllcfgr, 0x2400_0C90), on];
    goes(alloc, &board(), least.as_slice(), NO, true)
        && goes(alloc, &board(), half.as_slice(), NO, false)
        && goes(alloc, &board(), &half[..1], NO, true)
}

#[test]
fn what_goes_may_be_illegal(rt: HostRuntime) {
    assert!(rt; no_wait_state_is_too_few_for_168_mhz(rt.alloc()));
    assert!(rt; without_over_drive_180_mhz_is_too_fast(rt.alloc()));
    assert!(rt; a_pin_has_its_function_before_its_mode(rt.alloc()));
    assert!(rt; a_vco_is_in_range_where_the_pll_is_on(rt.alloc()));
}
