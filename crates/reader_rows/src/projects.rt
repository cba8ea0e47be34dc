//! Parts, pins, signals, clock keys and needs of projects under one table, and which fault comes first.
use ioc_project::{Project, ProjectFault, read_project};
use ioc_text::read_ioc;
use mcu_tables::{TableFault, Tables, read_tables};
use refusal::Refusal;
use res_base::{Items, OutOfMemory, Text};
use res_model::{Free, Opts};
use std::alloc::{AllocError, Global};
use std::process::Abort;
use std::test::Fail;

const B: &str = "Mcu.Name=STM32F407V(E-G)Tx\nMcu.Pin0=PB6\nPB6.Signal=USART1_TX";

/// A table of five pins and four signals.
fn table() -> &'static str {
    r#"{"version":1,"names":["STM32F405R","STM32F407V(E-G)Tx"],"package":"LQFP100","pins":["PA9","PB6","PB8","PD12","PH0-OSC_IN"],"signals":[{"name":"USART1_TX","use":"alt","at":[["PA9",7],["PB6",7]]},{"name":"I2C1_SCL","use":"alt","at":[["PB6",7],["PB8",7]]},{"name":"GPIO_Output","use":"output"},{"name":"RCC_OSC_IN","use":"osc","at":["PH0-OSC_IN"]}],"hse_in":"RCC_OSC_IN","hse_out":"RCC_OSC_OUT","ips":[{"name":"RNG","clock48":"most","marks":["OTHER","RNG_VS_RNG"]}],"clock":{"m":[2,63],"n":[50,432],"p":[2,4,6,8],"q":[2,15],"hpre":[1,2,4],"ppre1":[1,2,4],"ppre2":[1,2,4],"vos":[1,2]},"limits":{"crystal":[4000000,26000000],"bypass":[1000000,50000000],"vco_in":[1000000,2000000],"vco":[100000000,432000000],"sysclk":168000000,"pclk1":42000000,"pclk2":84000000},"scales":[{"vos":1,"max":168000000},{"vos":2,"max":144000000}],"flash":[{"from":1800,"to":3600,"prefetch":false,"rows":[20000000,40000000]}],"defaults":{"src":"HSI","psrc":"HSI","hpre":1,"p":2,"m":16,"n":192,"q":4,"ppre1":1,"ppre2":1,"vos":1,"hse":8000000}}"#
}

fn tables(alloc: Global) -> Result<Tables, Refusal<TableFault>> {
    read_tables(alloc, table().as_bytes())
}

fn texts(alloc: Global, names: &[&str]) -> Result<Items<Text>, OutOfMemory> {
    let mut found = Items::of(Vec::new(alloc));
    for name in names {
        found.push(Text::copy(alloc, *name)?)?;
    }
    Ok(found)
}

fn options(alloc: Global, needs: &[&str], free: Free) -> Result<Opts, OutOfMemory> {
    Ok(Opts {
        vdd: 3300,
        needs: texts(alloc, needs)?,
        hclk: None,
        pclk1: None,
        pclk2: None,
        free,
    })
}

/// The signals, the homes of the clock variables with their lines, the HSE and the marks; or the fault.
fn told(
    alloc: Global,
    read: &Result<Project, Refusal<ProjectFault>>,
) -> Result<String, AllocError> {
    let mut out = String::new(alloc);
    match read {
        Ok(project) => {
            for s in project.signals.as_slice() {
                let name = s.name.as_str();
                out.push_str(format!(in alloc; "{name} {:?}", s.home)?.as_str())?;
                out.push_str(if s.locked { " locked" } else { "" })?;
                out.push_str(if s.need { " need" } else { "" })?;
                out.push_str(format!(in alloc; " {:?} {:?}, ", s.pull, s.speed)?.as_str())?;
            }
            for home in project.clock.iter() {
                out.push_str(format!(in alloc; "{}@{} ", home.value, home.line)?.as_str())?;
            }
            out.push_str(format!(in alloc; "{}", project.hse_hz)?.as_str())?;
            for mark in project.marks.as_slice() {
                out.push_str(" ")?;
                out.push_str(mark.as_str())?;
            }
        }
        Err(Refusal::Fault(fault)) => out.push_str(format!(in alloc; "{fault:?}")?.as_str())?,
        Err(Refusal::OutOfMemory) => return Err(AllocError),
    }
    Ok(out)
}

/// What is told of the project that a text says under the table.
fn told_of(alloc: Global, text: &str, opts: &Opts, clocks: bool) -> Result<String, Fail> {
    if text.len() > 10_000 {
        return Err(Fail::from("a long text"));
    }
    match read_ioc(alloc, text.as_bytes()) {
        Ok(ioc) => {
            let t = tables(alloc)?;
            let read = read_project(alloc, &t, &ioc, opts, clocks);
            Ok(told(alloc, &read)?)
        }
        Err(Refusal::Fault(fault)) => Ok(format!(in alloc; "{fault:?}")?),
        Err(Refusal::OutOfMemory) => Err(Fail::from("no memory")),
    }
}

fn reads(
    rt: &(impl Abort + AllocGlobal),
    text: &str,
    opts: &Opts,
    clocks: bool,
    want: &str,
) -> Result<(), Fail> {
    let found = told_of(rt.alloc(), text, opts, clocks)?;
    assert_eq!(rt; found.as_str(), want, "of {text}");
    Ok(())
}

/// Each text after a first line that names the part.
fn after_name(
    rt: &(impl Abort + AllocGlobal),
    cases: &[(&str, &str)],
    opts: &Opts,
    clocks: bool,
) -> Result<(), Fail> {
    for (lines, want) in cases {
        let mut text = String::from_str(rt.alloc(), "Mcu.Name=STM32F407V(E-G)Tx\n")?;
        text.push_str(*lines)?;
        reads(rt, text.as_str(), opts, clocks, *want)?;
    }
    Ok(())
}

const CLOCK: &str = "0@0 0@0 1@0 2@0 16@0 192@0 4@0 1@0 1@0 1@0 8000000";

#[test]
fn the_part(rt: HostRuntime) -> Result<(), Fail> {
    let opts = options(rt.alloc(), &[], Free::All)?;
    reads(&rt, "", &opts, false, "WrongPart { line: 0 }")?;
    reads(
        &rt,
        "Mcu.Name=STM32F407V(E-G)Tx\r",
        &opts,
        false,
        "WrongPart { line: 1 }",
    )?;
    reads(
        &rt,
        "RCC.PLLM\nMcu.Name=STM32F407V(E-G)Tx",
        &opts,
        false,
        "NoEquals { line: 1 }",
    )?;
    Ok(())
}

#[test]
fn the_package_and_the_number_of_pins(rt: HostRuntime) -> Result<(), Fail> {
    let opts = options(rt.alloc(), &[], Free::All)?;
    let cases = [
        ("", CLOCK),
        ("Mcu.Package=LQFP64", "WrongPart { line: 2 }"),
        (
            "Mcu.PinsNb=03\nKeepUserPlacement=yes",
            "BadValue { line: 2 }",
        ),
        (
            "Mcu.PinsNb=3\nKeepUserPlacement=yes",
            "BadValue { line: 3 }",
        ),
    ];
    after_name(&rt, &cases, &opts, false)
}

#[test]
fn pins(rt: HostRuntime) -> Result<(), Fail> {
    let opts = options(rt.alloc(), &[], Free::All)?;
    let cases = [
        ("Mcu.Pin0=PZ9", "UnknownPin { line: 2 }"),
        ("Mcu.Pin1=PB6\nMcu.Pin0=PB6", "BadValue { line: 2 }"),
        (
            "Mcu.Pin0=PB6\nPB6.Signal=USART9_TX\nPB6.Locked=yes",
            "UnknownSignal { line: 3 }",
        ),
        (
            "Mcu.Pin0=PB6\nPB6.Signal=USART1_TX\nPB6.Locked=yes",
            "BadValue { line: 4 }",
        ),
        (
            "Mcu.Pin0=PB6\nPB6.GPIO_PuPd=UP\nPB6.Locked=yes",
            "BadValue { line: 4 }",
        ),
        (
            "Mcu.Pin0=PB6\nPB6.GPIO_Speed=LOW\nPB6.GPIO_PuPd=UP",
            "BadValue { line: 4 }",
        ),
        (
            "PB8.Locked=true\nMcu.Pin0=PB8\nPB8.Signal=USART1_TX",
            "NotCandidate { line: 4 }",
        ),
        (
            "KeepUserPlacement=true\nMcu.Pin0=PB8\nPB8.Signal=USART1_TX",
            "NotCandidate { line: 4 }",
        ),
        (
            "PA9.GPIO_PuPd=nonsense\n.Signal=x\nMcu.Pin0=VP_A\nVP_A.Locked=x",
            CLOCK,
        ),
    ];
    after_name(&rt, &cases, &opts, false)
}

#[test]
fn signals(rt: HostRuntime) -> Result<(), Fail> {
    let opts = options(rt.alloc(), &[], Free::All)?;
    let cases = [
        (
            "Mcu.Pin10=PB8\nMcu.Pin2=PB6\nPB8.Signal=USART1_TX\nPB6.Locked=true",
            "- Some(1) locked None Low, USART1_TX Some(2) None Low, ",
        ),
        (
            "KeepUserPlacement=true\nMcu.Pin0=PD12\nPD12.Signal=GPIO_Output",
            "GPIO_Output Some(3) locked None Low, ",
        ),
        (
            "Mcu.Pin0=PB6\nPB6.Signal=I2C1_SCL\nPB6.GPIO_PuPd=GPIO_PULLUP\nPB6.GPIO_Speed=GPIO_SPEED_FREQ_VERY_HIGH",
            "I2C1_SCL Some(1) Up VeryHigh, ",
        ),
        (
            "Mcu.Pin0=PH0-OSC_IN\nPH0-OSC_IN.Signal=RCC_OSC_IN\nPH0-OSC_IN.GPIO_PuPd=GPIO_PULLDOWN\nPH0-OSC_IN.GPIO_Speed=GPIO_SPEED_FREQ_MEDIUM",
            "RCC_OSC_IN Some(4) Down Medium, ",
        ),
    ];
    for (lines, signals) in cases {
        let mut want = String::from_str(rt.alloc(), signals)?;
        want.push_str(CLOCK)?;
        after_name(&rt, &[(lines, want.as_str())], &opts, false)?;
    }
    Ok(())
}

#[test]
fn marks(rt: HostRuntime) -> Result<(), Fail> {
    let opts = options(rt.alloc(), &[], Free::All)?;
    let marks = [(
        "Mcu.Pin0=VP_R\nVP_R.Signal=RNG_VS_RNG\nMcu.Pin1=VP_X\nVP_X.Signal=X\nMcu.Pin2=VP_R",
        "0@0 0@0 1@0 2@0 16@0 192@0 4@0 1@0 1@0 1@0 8000000 RNG_VS_RNG RNG_VS_RNG",
    )];
    after_name(&rt, &marks, &opts, false)
}

#[test]
fn a_kept_signal_is_at_one_of_its_pins(rt: HostRuntime) -> Result<(), Fail> {
    let fixed = options(rt.alloc(), &[], Free::Clock)?;
    let cases = [(
        "Mcu.Pin0=PB8\nPB8.Signal=USART1_TX",
        "NotCandidate { line: 3 }",
    )];
    after_name(&rt, &cases, &fixed, true)
}

#[test]
fn clock_keys(rt: HostRuntime) -> Result<(), Fail> {
    let free = options(rt.alloc(), &[], Free::All)?;
    let fixed = options(rt.alloc(), &[], Free::Pins)?;
    let all =
        "RCC.HSE_VALUE=0\nRCC.PLLM=8\nRCC.PLLN=336\nRCC.PLLQ=7\nRCC.PLLP=RCC_PLLP_DIV4\nRCC.SYSCLKSource=RCC_SYSCLKSOURCE_PLLCLK\nRCC.PLLSourceVirtual=RCC_PLLSOURCE_HSE\nRCC.AHBCLKDivider=RCC_SYSCLK_DIV2\nRCC.APB1CLKDivider=RCC_HCLK_DIV4\nRCC.APB2CLKDivider=RCC_HCLK_DIV2";
    let want = "2@7 1@8 2@9 4@6 8@3 336@4 7@5 4@10 2@11 1@0 0";
    after_name(&rt, &[(all, want)], &free, false)?;
    after_name(&rt, &[(all, want)], &fixed, true)?;
    Ok(())
}

#[test]
fn clock_keys_that_are_refused(rt: HostRuntime) -> Result<(), Fail> {
    let free = options(rt.alloc(), &[], Free::All)?;
    let fixed = options(rt.alloc(), &[], Free::Pins)?;
    let refused = [
        (
            "RCC.PLLM=65536\nRCC.HSE_VALUE=4294967296",
            "BadValue { line: 3 }",
        ),
        (
            "RCC.PLLP=RCC_PLLP_DIV02\nRCC.PLLM=08",
            "BadValue { line: 3 }",
        ),
        ("RCC.APB2CLKDivider=RCC_SYSCLK_DIV2", "BadValue { line: 2 }"),
        (
            "RCC.PLLSourceVirtual=RCC_PLLSOURCE_PLL",
            "BadValue { line: 2 }",
        ),
        ("RCC.SYSCLKSource=HSI", "BadValue { line: 2 }"),
    ];
    after_name(&rt, &refused, &free, false)?;
    let outside = [
        (
            "RCC.SYSCLKSource=RCC_SYSCLKSOURCE_PLLCLK\nRCC.PLLM=1",
            "OutOfTable { line: 3 }",
        ),
        (
            "RCC.APB1CLKDivider=RCC_HCLK_DIV3\nRCC.PLLQ=16",
            "OutOfTable { line: 3 }",
        ),
    ];
    after_name(&rt, &outside, &fixed, true)
}

#[test]
fn needs(rt: HostRuntime) -> Result<(), Fail> {
    for (needs, want) in [
        (["FOO", "GPIO_Output"], "UnknownNeed { need: 1 }"),
        (["I2C1_SCL", "GPIO_Output"], "UnknownNeed { need: 2 }"),
    ] {
        let opts = options(rt.alloc(), &needs, Free::All)?;
        reads(&rt, B, &opts, false, want)?;
    }
    let many = ["USART1_TX"; 160];
    let opts = options(rt.alloc(), &many, Free::All)?;
    reads(&rt, B, &opts, false, "TooMany { count: 161 }")
}

#[test]
fn cut_inputs(rt: HostRuntime) -> Result<(), Fail> {
    let opts = options(rt.alloc(), &["I2C1_SCL"], Free::All)?;
    for length in 0..=B.len() {
        let signals = match length {
            0 => "WrongPart { line: 0 }",
            1..=8 => "NoEquals { line: 1 }",
            9..=25 => "WrongPart { line: 1 }",
            26 | 27 => "I2C1_SCL None need None Low, ",
            28..=35 => "NoEquals { line: 2 }",
            36..=38 => "UnknownPin { line: 2 }",
            39 | 40 => "- Some(1) None Low, I2C1_SCL None need None Low, ",
            41..=50 => "NoEquals { line: 3 }",
            51..=59 => "UnknownSignal { line: 3 }",
            _ => "USART1_TX Some(1) None Low, I2C1_SCL None need None Low, ",
        };
        let mut want = String::from_str(rt.alloc(), signals)?;
        if !signals.ends_with("}") {
            want.push_str(CLOCK)?;
        }
        let text = std::str::from_utf8(&B.as_bytes()[..length])?;
        reads(&rt, text, &opts, false, want.as_str())?;
    }
    Ok(())
}
