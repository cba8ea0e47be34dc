//! The settings that are run, and their table.
ghost use Rattle.std.specs.Prelude.{◌<◌};
ghost use Rattle.res_base.specs.Lists.{Member};
ghost use Rattle.res_model.specs.ClockValues.{known_steps};
ghost use Rattle.init_gen.specs.Good.{HasFields, IsSettable};
ghost use Rattle.init_gen.specs.PinWrites.{AreWhole, IsNarrow};

use init_gen::{Setting, Setup};
use res_model::{ClockChoice, Facts, Mode, Pull, Speed, Src};

/// A table with the limits of the STM32F407 at 2.7 V and above, or in version 2 with those of the STM32F429.
pub(crate) fn table(version: u8) -> &'static str {
    if version == 1 {
        r#"{"version":1,"names":["STM32F407V(E-G)Tx"],"package":"LQFP100","pins":["PB3","PH0-OSC_IN"],"signals":[{"name":"SPI1_SCK","use":"alt","at":[["PB3",5]]},{"name":"RCC_OSC_IN","use":"osc","at":["PH0-OSC_IN"]}],"hse_in":"RCC_OSC_IN","hse_out":"RCC_OSC_OUT","ips":[],"clock":{"m":[2,63],"n":[50,432],"p":[2,4,6,8],"q":[2,15],"hpre":[1,2],"ppre1":[1,2,4],"ppre2":[1,2],"vos":[1,2]},"limits":{"crystal":[4000000,26000000],"bypass":[1000000,50000000],"vco_in":[1000000,2000000],"vco":[100000000,432000000],"sysclk":168000000,"pclk1":42000000,"pclk2":84000000},"scales":[{"vos":1,"max":168000000},{"vos":2,"max":144000000}],"flash":[{"from":2700,"to":3600,"prefetch":true,"rows":[30000000,60000000,90000000,120000000,150000000,168000000]}],"defaults":{"src":"HSI","psrc":"HSE","hpre":1,"p":2,"m":16,"n":192,"q":4,"ppre1":1,"ppre2":1,"vos":1,"hse":8000000}}"#
    } else {
        r#"{"version":2,"names":["STM32F429V(E-G)Tx"],"package":"LQFP100","pins":["PB3","PH0-OSC_IN"],"signals":[{"name":"SPI1_SCK","use":"alt","at":[["PB3",5]]},{"name":"RCC_OSC_IN","use":"osc","at":["PH0-OSC_IN"]}],"hse_in":"RCC_OSC_IN","hse_out":"RCC_OSC_OUT","ips":[],"clock":{"m":[2,63],"n":[50,432],"p":[2,4,6,8],"q":[2,15],"hpre":[1,2],"ppre1":[1,2,4],"ppre2":[1,2],"vos":[1,2,3,4,5]},"limits":{"crystal":[4000000,26000000],"bypass":[1000000,50000000],"vco_in":[1000000,2000000],"vco":[100000000,432000000],"sysclk":168000000,"pclk1":42000000,"pclk2":84000000,"over":{"sysclk":180000000,"pclk1":45000000,"pclk2":90000000}},"scales":[{"vos":1,"max":168000000},{"vos":2,"max":144000000},{"vos":3,"max":120000000},{"vos":4,"max":180000000},{"vos":5,"max":168000000}],"flash":[{"from":2700,"to":3600,"prefetch":true,"rows":[30000000,60000000,90000000,120000000,150000000,180000000]}],"defaults":{"src":"HSI","psrc":"HSE","hpre":1,"p":2,"m":16,"n":192,"q":4,"ppre1":1,"ppre2":1,"vos":1,"hse":8000000}}"#
    }
}

/// A supply of 3.3 V and no HSE.
fn bare_facts() -> Facts {
    Facts {
        hse_hz: 8_000_000,
        osc_in: false,
        bypass: false,
        need48: false,
        exact48: false,
        most48: false,
        floor: 0,
        vdd: 3300,
        hclk: None,
        pclk1: None,
        pclk2: None,
    }
}

/// A crystal of 8 MHz, and a full-speed USB that needs 48 MHz and an HCLK above 14.2 MHz.
fn usb_facts() -> Facts {
    Facts {
        osc_in: true,
        need48: true,
        exact48: true,
        floor: 14_200_001,
        ..bare_facts()
    }
}

/// 168 MHz from the crystal, and 48 MHz for USB.
fn fast_clock() -> ClockChoice
    ensures { HasFields 1 result }
{
    ClockChoice {
        src: Src::Pll,
        psrc: Src::Hse,
        hpre: 1,
        p: 2,
        m: 8,
        n: 336,
        q: 7,
        ppre1: 4,
        ppre2: 2,
        vos: 1,
    }
}

/// HSI as it is.
fn slow_clock() -> ClockChoice
    ensures { HasFields 1 result }
{
    ClockChoice {
        src: Src::Hsi,
        psrc: Src::Hse,
        hpre: 1,
        p: 2,
        m: 16,
        n: 192,
        q: 4,
        ppre1: 1,
        ppre2: 1,
        vos: 1,
    }
}

/// 180 MHz from HSI, at scale 1 with over-drive.
fn over_clock() -> ClockChoice
    ensures { HasFields 2 result }
{
    ClockChoice {
        src: Src::Pll,
        psrc: Src::Hsi,
        hpre: 1,
        p: 2,
        m: 16,
        n: 360,
        q: 4,
        ppre1: 4,
        ppre2: 2,
        vos: 4,
    }
}

/// HSI as it is, at a power step of version 2.
fn slow_clock_at(step: u8) -> ClockChoice
    requires { Member step (known_steps 2) }
    ensures { HasFields 2 result }
{
    ClockChoice {
        src: Src::Hsi,
        psrc: Src::Hsi,
        hpre: 1,
        p: 2,
        m: 16,
        n: 192,
        q: 4,
        ppre1: 1,
        ppre2: 1,
        vos: step,
    }
}

fn no_pins() -> [Option<Setup>; 144]
    ensures { AreWhole result }
{
    [None; 144]
}

/// With no pull resistor, low speed and no open drain at a place.
#[tactic(auto, using(crate::proofs::PinLemmas::whole_set))]
fn with_pin(pins: [Option<Setup>; 144], place: u8, mode: Mode) -> [Option<Setup>; 144]
    requires whole { AreWhole pins }
    requires place { place < 144 }
    requires mode { IsNarrow mode }
    ensures { AreWhole result }
{
    let mut pins = pins;
    pins[place as usize] = Some(Setup {
        mode,
        pull: Pull::None,
        speed: Speed::Low,
        drain: false,
    });
    pins
}

/// USB on PA11 and PA12, the debugger on PA13 and PA14, and the crystal on PH0 and PH1.
fn ports_a_and_h() -> [Option<Setup>; 144]
    ensures { AreWhole result }
{
    let dm = with_pin(no_pins(), 11, Mode::Alt(10));
    let dp = with_pin(dm, 12, Mode::Alt(10));
    let swdio = with_pin(dp, 13, Mode::Alt(0));
    let swclk = with_pin(swdio, 14, Mode::Alt(0));
    let osc_in = with_pin(swclk, 112, Mode::Osc);
    with_pin(osc_in, 113, Mode::Osc)
}

/// And outputs on PD12 to PD15.
fn board_pins() -> [Option<Setup>; 144]
    ensures { AreWhole result }
{
    let green = with_pin(ports_a_and_h(), 60, Mode::Output);
    let orange = with_pin(green, 61, Mode::Output);
    let red = with_pin(orange, 62, Mode::Output);
    with_pin(red, 63, Mode::Output)
}

/// A board with a crystal, USB, a debugger and four lamps, at 168 MHz.
pub(crate) fn board() -> Setting
    ensures { IsSettable result }
{
    Setting {
        version: 1,
        facts: usb_facts(),
        clock: fast_clock(),
        wait: 5,
        prefetch: true,
        pins: board_pins(),
    }
}

/// PB3 as SPI1_SCK, and no other pin.
pub(crate) fn clock_pin() -> Setting
    ensures { IsSettable result }
{
    Setting {
        version: 1,
        facts: bare_facts(),
        clock: slow_clock(),
        wait: 0,
        prefetch: true,
        pins: with_pin(no_pins(), 19, Mode::Alt(5)),
    }
}

/// No pin, at 180 MHz from HSI.
pub(crate) fn over() -> Setting
    ensures { IsSettable result }
{
    Setting {
        version: 2,
        facts: bare_facts(),
        clock: over_clock(),
        wait: 5,
        prefetch: true,
        pins: no_pins(),
    }
}

/// No pin, and HSI as it is, at scale 3.
pub(crate) fn third_scale() -> Setting
    ensures { IsSettable result }
{
    Setting {
        version: 2,
        facts: bare_facts(),
        clock: slow_clock_at(3),
        wait: 0,
        prefetch: true,
        pins: no_pins(),
    }
}

/// A crystal of the HSE, and a supply that allows prefetch.
pub(crate) fn crystal() -> Setting {
    Setting {
        facts: Facts {
            osc_in: true,
            ..bare_facts()
        },
        ..clock_pin()
    }
}

/// Neither an input for the HSE nor a supply that allows prefetch.
pub(crate) fn bare() -> Setting {
    Setting {
        facts: Facts {
            vdd: 2000,
            ..bare_facts()
        },
        ..clock_pin()
    }
}
