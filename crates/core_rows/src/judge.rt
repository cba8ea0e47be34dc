//! The judge of a problem of pins, from the bytes of a table and of a project. What is known of a table stays in the
//! functions here, so that no goal of a test carries it.
ghost use Rattle.std.specs.Prelude.{◌<◌, ◌^◌, false};
ghost use Rattle.ioc_project.specs.Read.{IsRead};

use box_judge::PinJudge;
use choice_rank::ShapeFault;
use problem::{Part, Problem, build};
use project_reading::{Opened, open_project};
use refusal::Refusal;
use res_base::{Items, OutOfMemory, Text};
use res_model::{Free, Opts, Project, Tables};
use std::alloc::Global;

/// USART1_TX can be at PA9 and PB6, and I2C1_SCL at PB6 and PB8, as in the data sheet.
fn table() -> &'static str {
    r#"{"version":1,"names":["STM32F407V(E-G)Tx"],"package":"LQFP100","pins":["PA9","PB6","PB8"],
"signals":[{"name":"USART1_TX","use":"alt","at":[["PA9",7],["PB6",7]]},{"name":"I2C1_SCL","use":"alt","at":[["PB6",4],["PB8",4]]}],
"hse_in":"RCC_OSC_IN","hse_out":"RCC_OSC_OUT","ips":[],
"clock":{"m":[2,63],"n":[50,432],"p":[2],"q":[2,15],"hpre":[1],"ppre1":[1],"ppre2":[1],"vos":[1]},
"limits":{"crystal":[4000000,26000000],"bypass":[1000000,50000000],"vco_in":[1000000,2000000],"vco":[100000000,432000000],"sysclk":168000000,"pclk1":42000000,"pclk2":84000000},
"scales":[{"vos":1,"max":168000000}],"flash":[],
"defaults":{"src":"HSI","psrc":"HSI","hpre":1,"p":2,"m":16,"n":192,"q":4,"ppre1":1,"ppre2":1,"vos":1,"hse":8000000}}"#
}

/// USART1_TX has its home at PB6.
fn project() -> &'static str {
    "Mcu.Name=STM32F407V(E-G)Tx\nMcu.Pin0=PB6\nPB6.Signal=USART1_TX\n"
}

/// I2C1_SCL is needed besides.
fn options(alloc: Global) -> Result<Opts, OutOfMemory> {
    let mut needs = Vec::new(alloc);
    needs.push(Text::copy(alloc, "I2C1_SCL")?)?;
    Ok(Opts {
        vdd: 3300,
        needs: Items::of(needs),
        hclk: None,
        pclk1: None,
        pclk2: None,
        free: Free::All,
    })
}

/// The problem of the pins alone.
fn built(alloc: Global, t: Tables, p: Project, opts: &Opts) -> Result<Problem, Refusal<ShapeFault>>
    requires read { IsRead t opts.now false p }
    requires hertz { p.hse_hz < 2 ^ 32 }
{
    build(alloc, t, p, opts, Part::PinsOnly)
}

fn judge_of(alloc: Global, problem: Problem) -> Option<PinJudge> {
    if problem.parts().first != 0 {
        return None;
    }
    PinJudge::new(alloc, problem).ok()
}

fn judge_over(alloc: Global, t: Tables, p: Project, opts: &Opts) -> Option<PinJudge>
    requires { IsRead t opts.now false p }
{
    if p.hse_hz >= 1 << 32 {
        return None;
    }
    judge_of(alloc, built(alloc, t, p, opts).ok()?)
}

/// Two signals that compete for PB6: variable 0 is USART1_TX at PB6 or PA9, and variable 1 is I2C1_SCL at PB6 or PB8. There
/// is no judge where memory ran out or a text was refused.
pub(crate) fn shared_pin(alloc: Global) -> Option<PinJudge> {
    let opts = options(alloc).ok()?;
    let text = project().as_bytes();
    if text.len() > 1000 {
        return None;
    }
    match open_project(alloc, table().as_bytes(), text, &opts, false) {
        Ok(Opened::Project { tables, project }) => judge_over(alloc, tables, project, &opts),
        _ => None,
    }
}
