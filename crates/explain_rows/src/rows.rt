//! What is told of projects under one table.
ghost use Rattle.std.specs.Prelude.{◌<◌, ◌≤◌, ◌^◌, true, length};
ghost use Rattle.ioc_project.specs.Read.{IsRead};

use answers::{Answer, Status};
use explain::explain;
use project_reading::{Opened, open_project};
use res_base::{Items, OutOfMemory, Text};
use res_model::{Free, Opts, Project, Tables};
use std::alloc::Global;
use std::test::Fail;

/// The sample table.
fn table() -> &'static str {
    r#"{"version":1,"names":["STM32F407V(E-G)Tx"],"package":"LQFP100","pins":["PA0-WKUP","PA2","PA3","PA5","PA6","PA7","PA9","PA10","PA11","PA12","PA13","PA14","PB0","PB3","PB4","PB5","PB6","PB7","PB8","PB9","PC6","PC7","PD0","PD1","PD5","PD6","PD12","PD13","PD14","PD15","PH0-OSC_IN","PH1-OSC_OUT","PE0","PE1","PE2","PE3","PE4","PE5","PE6","PE7"],"signals":[{"name":"USART1_TX","use":"alt","ip":"USART1","at":[["PA9",7],["PB6",7]]},{"name":"USART1_RX","use":"alt","ip":"USART1","at":[["PA10",7],["PB7",7]]},{"name":"USART2_TX","use":"alt","ip":"USART2","at":[["PA2",7],["PD5",7]]},{"name":"USART2_RX","use":"alt","ip":"USART2","at":[["PA3",7],["PD6",7]]},{"name":"USART6_TX","use":"alt","ip":"USART6","at":[["PC6",8]]},{"name":"USART6_RX","use":"alt","ip":"USART6","at":[["PC7",8]]},{"name":"I2C1_SCL","use":"alt","ip":"I2C1","drain":true,"at":[["PB6",4],["PB8",4]]},{"name":"I2C1_SDA","use":"alt","ip":"I2C1","drain":true,"at":[["PB7",4],["PB9",4]]},{"name":"SPI1_SCK","use":"alt","ip":"SPI1","at":[["PA5",5],["PB3",5]]},{"name":"SPI1_MISO","use":"alt","ip":"SPI1","at":[["PA6",5],["PB4",5]]},{"name":"SPI1_MOSI","use":"alt","ip":"SPI1","at":[["PA7",5],["PB5",5]]},{"name":"CAN1_RX","use":"alt","ip":"CAN1","at":[["PD0",9],["PB8",9]]},{"name":"CAN1_TX","use":"alt","ip":"CAN1","at":[["PD1",9],["PB9",9]]},{"name":"USB_OTG_FS_DM","use":"alt","ip":"USB_OTG_FS","at":[["PA11",10]]},{"name":"USB_OTG_FS_DP","use":"alt","ip":"USB_OTG_FS","at":[["PA12",10]]},{"name":"SYS_JTMS-SWDIO","use":"alt","at":[["PA13",0]]},{"name":"SYS_JTCK-SWCLK","use":"alt","at":[["PA14",0]]},{"name":"RCC_OSC_IN","use":"osc","at":["PH0-OSC_IN"]},{"name":"RCC_OSC_OUT","use":"osc","at":["PH1-OSC_OUT"]},{"name":"GPIO_Input","use":"input"},{"name":"GPIO_Output","use":"output"},{"name":"GPIO_Analog","use":"analog"},{"name":"GPXTI0","use":"exti"}],"hse_in":"RCC_OSC_IN","hse_out":"RCC_OSC_OUT","ips":[{"name":"USB_OTG_FS","clock48":"exact","floor":14200001},{"name":"ETH","clock48":"none","floor":25000000},{"name":"SDIO","clock48":"most"},{"name":"RNG","clock48":"most","marks":["RNG_VS_RNG"]}],"clock":{"m":[2,63],"n":[50,432],"p":[2,4,6,8],"q":[2,15],"hpre":[1,2,4,8,16,64,128,256,512],"ppre1":[1,2,4,8,16],"ppre2":[1,2,4,8,16],"vos":[1,2]},"limits":{"crystal":[4000000,26000000],"bypass":[1000000,50000000],"vco_in":[1000000,2000000],"vco":[100000000,432000000],"sysclk":168000000,"pclk1":42000000,"pclk2":84000000},"scales":[{"vos":1,"max":168000000},{"vos":2,"max":144000000}],"flash":[{"from":1800,"to":2099,"prefetch":false,"rows":[20000000,40000000,60000000,80000000,100000000,120000000,140000000,160000000]},{"from":2100,"to":2399,"prefetch":true,"rows":[22000000,44000000,66000000,88000000,110000000,132000000,154000000,168000000]},{"from":2400,"to":2699,"prefetch":true,"rows":[24000000,48000000,72000000,96000000,120000000,144000000,168000000]},{"from":2700,"to":3600,"prefetch":true,"rows":[30000000,60000000,90000000,120000000,150000000,168000000]}],"defaults":{"src":"HSI","psrc":"HSI","hpre":1,"p":2,"m":16,"n":192,"q":4,"ppre1":1,"ppre2":1,"vos":1,"hse":8000000}}"#
}

/// The default options.
fn options(alloc: Global) -> Opts {
    Opts {
        vdd: 3300,
        needs: Items::of(Vec::new(alloc)),
        hclk: None,
        pclk1: None,
        pclk2: None,
        free: Free::All,
    }
}

/// Adds a need.
fn need(alloc: Global, opts: &mut Opts, name: &str) -> Result<(), Fail> {
    opts.needs.push(Text::copy(alloc, name)?)?;
    Ok(())
}

/// That the HSE's frequency is a u32.
fn hertz_fit(t: &Tables)
    ensures { t.now.hse_hz < 2 ^ 32 }
{
    t.keeps_rules();
}

/// What is told of a project that was read.
fn told(
    alloc: Global,
    tables: Tables,
    project: Project,
    text: &str,
    opts: &Opts,
) -> Result<Answer, OutOfMemory>
    requires read { IsRead tables opts.now true project }
    requires short { length text.now ≤ 10000 }
{
    hertz_fit(&tables);
    explain(alloc, tables, project, text.as_bytes(), opts)
}

/// What is told of a project's text under the sample table; None where it is refused.
fn told_of(alloc: Global, text: &str, opts: &Opts) -> Result<Option<Answer>, Fail> {
    if text.len() > 10_000 {
        return Ok(None);
    }
    match open_project(alloc, table().as_bytes(), text.as_bytes(), opts, true)? {
        Opened::Refused(_) => Ok(None),
        Opened::Project { tables, project } => Ok(Some(told(alloc, tables, project, text, opts)?)),
    }
}

/// Whether this is told of a project.
fn is_told(
    alloc: Global,
    text: &str,
    opts: &Opts,
    status: Status,
    said: &str,
) -> Result<bool, Fail> {
    match told_of(alloc, text, opts)? {
        None => Ok(false),
        Some(answer) => Ok(answer.status == status && answer.text.as_slice() == said.as_bytes()),
    }
}

#[test]
fn a_need_and_a_wish_change_two(rt: HostRuntime) -> Result<(), Fail> {
    let alloc = rt.alloc();
    let mut opts = options(alloc);
    need(alloc, &mut opts, "I2C1_SCL")?;
    opts.hclk = Some(8000000);
    let held = is_told(
        alloc,
        r#"Mcu.Name=STM32F407V(E-G)Tx
Mcu.Pin0=PB6
PB6.Signal=USART1_TX
Mcu.Pin1=PB8
PB8.Signal=GPIO_Output
"#,
        &opts,
        Status::Done,
        r#"rank 28989116802 cost 2 of 14361580800
AHB divider changes from 1 to 2
USART1_TX moves from PB6 to PA9
I2C1_SCL takes PB6
"#,
    )?;
    assert!(rt; held);
    Ok(())
}

#[test]
fn four_signals_want_three_pins(rt: HostRuntime) -> Result<(), Fail> {
    let alloc = rt.alloc();
    let mut opts = options(alloc);
    need(alloc, &mut opts, "I2C1_SCL")?;
    opts.free = Free::Pins;
    let held = is_told(
        alloc,
        r#"Mcu.Name=STM32F407V(E-G)Tx
Mcu.Pin0=PB6
PB6.Signal=USART1_TX
Mcu.Pin1=PB8
PB8.Signal=GPIO_Output
Mcu.Pin2=PA9
PA9.Signal=GPIO_Output
"#,
        &opts,
        Status::NoChoice,
        r#"no choice
too few pins: 3 for 4 signals
USART1_TX at PB6 PA9
GPIO_Output at PB8
GPIO_Output at PA9
I2C1_SCL at PB6 PB8
fits without need 1 I2C1_SCL, cost 0
fits without GPIO_Output at PB8, cost 0
fits without GPIO_Output at PA9, cost 1
"#,
    )?;
    assert!(rt; held);
    Ok(())
}

#[test]
fn the_flash_is_too_slow(rt: HostRuntime) -> Result<(), Fail> {
    let alloc = rt.alloc();
    let mut opts = options(alloc);
    opts.hclk = Some(168000000);
    opts.vdd = 1800;
    let held = is_told(
        alloc,
        r#"Mcu.Name=STM32F407V(E-G)Tx
RCC.SYSCLKSource=RCC_SYSCLKSOURCE_PLLCLK
"#,
        &opts,
        Status::NoChoice,
        r#"no choice
limit 13: no flash row for HCLK, least 168000000, allowed 160000000 at 1800 mV
fits without --hclk 168000000, cost 1
"#,
    )?;
    assert!(rt; held);
    Ok(())
}

#[test]
fn a_lock_is_given_up(rt: HostRuntime) -> Result<(), Fail> {
    let alloc = rt.alloc();
    let mut opts = options(alloc);
    need(alloc, &mut opts, "I2C1_SCL")?;
    let held = is_told(
        alloc,
        r#"Mcu.Name=STM32F407V(E-G)Tx
Mcu.Pin0=PB6
PB6.Signal=USART1_TX
Mcu.Pin1=PB8
PB8.Signal=GPIO_Output
PB6.Locked=true
"#,
        &opts,
        Status::NoChoice,
        r#"no choice
too few pins: 2 for 3 signals
USART1_TX at PB6
GPIO_Output at PB8
I2C1_SCL at PB6 PB8
fits without need 1 I2C1_SCL, cost 0
fits without PB6.Locked=true, cost 1
fits without GPIO_Output at PB8, cost 0
"#,
    )?;
    assert!(rt; held);
    Ok(())
}

#[test]
fn no_flash_range(rt: HostRuntime) -> Result<(), Fail> {
    let alloc = rt.alloc();
    let mut opts = options(alloc);
    opts.vdd = 1700;
    let held = is_told(
        alloc,
        r#"Mcu.Name=STM32F407V(E-G)Tx
"#,
        &opts,
        Status::NoChoice,
        r#"no choice
limit 13: no flash row for HCLK, no range with 1700 mV
no single thing is found to help
"#,
    )?;
    assert!(rt; held);
    Ok(())
}

#[test]
fn two_wishes_contradict(rt: HostRuntime) -> Result<(), Fail> {
    let alloc = rt.alloc();
    let mut opts = options(alloc);
    opts.hclk = Some(16000000);
    opts.pclk1 = Some(32000000);
    let held = is_told(
        alloc,
        r#"Mcu.Name=STM32F407V(E-G)Tx
"#,
        &opts,
        Status::NoChoice,
        r#"no choice
limit 15: PCLK1 not as wished, possible 1000000 to 16000000, wished 32000000
fits without --hclk 16000000, cost 2
fits without --pclk1 32000000, cost 0
"#,
    )?;
    assert!(rt; held);
    Ok(())
}
