//! The least limit that a clock choice breaks, and wait states. Expected numbers are worked by hand. A row is a function that
//! answers whether all of its cases are as expected, and tests hold rows alone.
ghost use Rattle.res_model.specs.Clock.{AreFacts, IsInRange};

use clock_limits::broken;
use mcu_tables::{Tables, read_tables};
use power_flash::{least_wait, prefetch};
use res_base::Ratio;
use res_model::{ClockChoice, Facts, Src};
use std::alloc::Global;

/// The limits of an STM32F407, with two flash ranges.
fn table() -> &'static str {
    r#"{"version":1,"names":["STM32F407V(E-G)Tx"],"package":"LQFP100","pins":["PH0-OSC_IN"],"signals":[{"name":"RCC_OSC_IN","use":"osc","at":["PH0-OSC_IN"]}],"hse_in":"RCC_OSC_IN","hse_out":"RCC_OSC_OUT","ips":[],"clock":{"m":[2,63],"n":[50,432],"p":[2,4],"q":[2,15],"hpre":[1,2],"ppre1":[1,2,4],"ppre2":[1,2],"vos":[1,2]},"limits":{"crystal":[4000000,26000000],"bypass":[1000000,50000000],"vco_in":[1000000,2000000],"vco":[100000000,432000000],"sysclk":168000000,"pclk1":42000000,"pclk2":84000000},"scales":[{"vos":1,"max":168000000},{"vos":2,"max":144000000}],"flash":[{"from":1800,"to":2099,"prefetch":true,"rows":[20000000,40000000,160000000]},{"from":2700,"to":3600,"prefetch":true,"rows":[30000000,60000000,90000000,120000000,150000000,168000000]}],"defaults":{"src":"HSI","psrc":"HSI","hpre":1,"p":2,"m":16,"n":192,"q":4,"ppre1":1,"ppre2":1,"vos":1,"hse":8000000}}"#
}

/// The limits of an STM32F429 at 2.7 V and above.
fn table_with_over() -> &'static str {
    r#"{"version":2,"names":["STM32F429V(E-G)Tx"],"package":"LQFP100","pins":["PH0-OSC_IN"],"signals":[{"name":"RCC_OSC_IN","use":"osc","at":["PH0-OSC_IN"]}],"hse_in":"RCC_OSC_IN","hse_out":"RCC_OSC_OUT","ips":[],"clock":{"m":[2,63],"n":[50,432],"p":[2,4],"q":[2,15],"hpre":[1,2],"ppre1":[1,2,4],"ppre2":[1,2],"vos":[1,2,3,4,5]},"limits":{"crystal":[4000000,26000000],"bypass":[1000000,50000000],"vco_in":[1000000,2000000],"vco":[100000000,432000000],"sysclk":168000000,"pclk1":42000000,"pclk2":84000000,"over":{"sysclk":180000000,"pclk1":45000000,"pclk2":90000000}},"scales":[{"vos":1,"max":168000000},{"vos":2,"max":144000000},{"vos":3,"max":120000000},{"vos":4,"max":180000000},{"vos":5,"max":168000000}],"flash":[{"from":2700,"to":3600,"prefetch":true,"rows":[30000000,60000000,90000000,120000000,150000000,180000000]}],"defaults":{"src":"HSI","psrc":"HSI","hpre":1,"p":2,"m":16,"n":192,"q":4,"ppre1":1,"ppre2":1,"vos":1,"hse":8000000}}"#
}

fn tables(alloc: Global) -> Option<Tables> {
    read_tables(alloc, table().as_bytes()).ok()
}

fn tables_with_over(alloc: Global) -> Option<Tables> {
    read_tables(alloc, table_with_over().as_bytes()).ok()
}

const QUIET: Facts = Facts {
    hse_hz: 8_000_000,
    osc_in: false,
    bypass: false,
    need48: false,
    exact48: false,
    most48: false,
    floor: 0,
    vdd: 3300,
    hclk: None,
    pclk1: None,
    pclk2: None,
};

const USB: Facts = Facts {
    osc_in: true,
    need48: true,
    exact48: true,
    floor: 14_200_001,
    ..QUIET
};

/// The state after reset.
const RESET: ClockChoice = ClockChoice {
    src: Src::Hsi,
    psrc: Src::Hsi,
    hpre: 1,
    p: 2,
    m: 16,
    n: 192,
    q: 4,
    ppre1: 1,
    ppre2: 1,
    vos: 1,
};

/// 168 MHz from a crystal of 8 MHz.
const FULL: ClockChoice = ClockChoice {
    src: Src::Pll,
    psrc: Src::Hse,
    m: 8,
    n: 336,
    q: 7,
    ppre1: 4,
    ppre2: 2,
    ..RESET
};

/// 180 MHz from HSI, at scale 1 with over-drive.
const OVER: ClockChoice = ClockChoice {
    src: Src::Pll,
    n: 360,
    ppre1: 4,
    ppre2: 2,
    vos: 4,
    ..RESET
};

/// Whether this is the least limit that a choice breaks under the table.
fn breaks(alloc: Global, f: &Facts, c: &ClockChoice, limit: Option<u8>) -> bool
    requires choice { IsInRange c.now }
    requires facts { AreFacts f.now }
{
    match tables(alloc) {
        Some(t) => broken(&t, f, c) == limit,
        None => false,
    }
}

/// Whether this is the least limit that a choice breaks under the table of a part with over-drive.
fn breaks_with_over(alloc: Global, c: &ClockChoice, limit: Option<u8>) -> bool
    requires { IsInRange c.now }
{
    match tables_with_over(alloc) {
        Some(t) => broken(&t, &QUIET, c) == limit,
        None => false,
    }
}

fn a_step_has_its_own_limit(alloc: Global) -> bool {
    let plain = ClockChoice { vos: 1, ..OVER };
    let scale_2 = ClockChoice { vos: 5, ..OVER };
    let slower = ClockChoice { n: 336, ..scale_2 };
    breaks_with_over(alloc, &OVER, None)
        // 180 MHz, without over-drive and at the other step
        && breaks_with_over(alloc, &plain, Some(6))
        && breaks_with_over(alloc, &scale_2, Some(7))
        // 168 MHz
        && breaks_with_over(alloc, &slower, None)
}

/// PCLK1 would be 90 MHz, and PCLK2 180 MHz.
fn buses_are_bounded_beside_over_drive(alloc: Global) -> bool {
    let first = ClockChoice { ppre1: 2, ..OVER };
    let second = ClockChoice { ppre2: 1, ..OVER };
    breaks_with_over(alloc, &first, Some(8)) && breaks_with_over(alloc, &second, Some(9))
}

/// 120 MHz and 121 MHz.
fn scale_3_has_a_limit_of_its_own(alloc: Global) -> bool {
    let most = ClockChoice {
        n: 240,
        vos: 3,
        ..OVER
    };
    let more = ClockChoice { n: 242, ..most };
    breaks_with_over(alloc, &most, None) && breaks_with_over(alloc, &more, Some(7))
}

fn over_drive_is_beside_the_pll_alone(alloc: Global) -> bool {
    let idle = ClockChoice { vos: 4, ..RESET };
    let scale_2 = ClockChoice { vos: 5, ..RESET };
    let third = ClockChoice { vos: 3, ..RESET };
    breaks_with_over(alloc, &idle, Some(17))
        && breaks_with_over(alloc, &scale_2, Some(17))
        && breaks_with_over(alloc, &third, None)
}

#[test]
fn limits_are_those_of_the_power_step(rt: HostRuntime) {
    assert!(rt; a_step_has_its_own_limit(rt.alloc()));
    assert!(rt; buses_are_bounded_beside_over_drive(rt.alloc()));
    assert!(rt; scale_3_has_a_limit_of_its_own(rt.alloc()));
    assert!(rt; over_drive_is_beside_the_pll_alone(rt.alloc()));
}

fn the_state_after_reset_needs_a_flash_range(alloc: Global) -> bool {
    let low = Facts { vdd: 1700, ..QUIET };
    breaks(alloc, &QUIET, &RESET, None) && breaks(alloc, &low, &RESET, Some(13))
}

/// PCLK1 is seven eighths of a hertz above 42,000,000.
fn hertz_above_a_limit_count_to_the_last_part(alloc: Global) -> bool {
    let f = Facts {
        hse_hz: 48_000_001,
        osc_in: true,
        bypass: true,
        ..QUIET
    };
    let c = ClockChoice {
        m: 48,
        n: 168,
        ppre1: 2,
        ..FULL
    };
    breaks(alloc, &f, &c, Some(8))
}

fn a_full_tree_with_usb_breaks_no_limit(alloc: Global) -> bool {
    let slow = ClockChoice { q: 8, ..FULL };
    breaks(alloc, &USB, &FULL, None) && breaks(alloc, &USB, &slow, Some(10))
}

fn the_hse_needs_its_input_only_where_it_is_used(alloc: Global) -> bool {
    let idle = ClockChoice {
        psrc: Src::Hse,
        ..RESET
    };
    let used = ClockChoice {
        src: Src::Hse,
        ..RESET
    };
    breaks(alloc, &QUIET, &idle, None) && breaks(alloc, &QUIET, &used, Some(3))
}

#[test]
fn the_least_limit_is_told(rt: HostRuntime) {
    assert!(rt; the_state_after_reset_needs_a_flash_range(rt.alloc()));
    assert!(rt; hertz_above_a_limit_count_to_the_last_part(rt.alloc()));
    assert!(rt; a_full_tree_with_usb_breaks_no_limit(rt.alloc()));
    assert!(rt; the_hse_needs_its_input_only_where_it_is_used(rt.alloc()));
}

/// Whether these are the least wait states at 3.3 V for so many hertz.
fn waits(alloc: Global, hertz: u32, states: Option<u8>) -> bool {
    match tables(alloc) {
        Some(t) => least_wait(&t, 3300, &Ratio::whole(u64::from(hertz))) == states,
        None => false,
    }
}

fn the_first_row_that_covers_gives_the_wait_states(alloc: Global) -> bool {
    waits(alloc, 16_000_000, Some(0))
        && waits(alloc, 30_000_000, Some(0))
        && waits(alloc, 30_000_001, Some(1))
        && waits(alloc, 120_000_000, Some(3))
        && waits(alloc, 168_000_001, None)
}

/// Whether a supply voltage in millivolts is within a range, or not, as expected. Both ranges allow prefetch.
fn is_within(alloc: Global, vdd: u32, within: bool) -> bool {
    match tables(alloc) {
        Some(t) => prefetch(&t, vdd) == within,
        None => false,
    }
}

fn both_ends_of_a_range_are_within_it(alloc: Global) -> bool {
    is_within(alloc, 1799, false)
        && is_within(alloc, 1800, true)
        && is_within(alloc, 2099, true)
        && is_within(alloc, 2100, false)
        && is_within(alloc, 3600, true)
        && is_within(alloc, 3601, false)
}

#[test]
fn flash_has_ranges_and_rows(rt: HostRuntime) {
    assert!(rt; the_first_row_that_covers_gives_the_wait_states(rt.alloc()));
    assert!(rt; both_ends_of_a_range_are_within_it(rt.alloc()));
}
