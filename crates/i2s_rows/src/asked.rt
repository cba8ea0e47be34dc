//! What is asked, without clauses, so that no test carries the facts of a table.
ghost use Rattle.std.specs.Prelude.{◌<◌, ◌≤◌};
ghost use Rattle.res_model.specs.Clock.{IsInRange};

use i2s_pll::{I2s, I2sMachine, I2sOp, I2sStep, i2s_answer, i2s_writes};
use mcu_tables::{TableFault, read_tables};
use refusal::Refusal;
use res_model::{ClockChoice, Facts, Src, Tables};
use std::alloc::Global;
use std::test::Fail;

/// A table with the limits of the STM32F407.
fn table() -> &'static str {
    r#"{"version":1,"names":["STM32F407V(E-G)Tx"],"package":"LQFP100","pins":["PH0-OSC_IN"],"signals":[{"name":"RCC_OSC_IN","use":"osc","at":["PH0-OSC_IN"]}],"hse_in":"RCC_OSC_IN","hse_out":"RCC_OSC_OUT","ips":[],"clock":{"m":[2,63],"n":[50,432],"p":[2,4,6,8],"q":[2,15],"hpre":[1,2],"ppre1":[1,2,4],"ppre2":[1,2],"vos":[1,2]},"limits":{"crystal":[4000000,26000000],"bypass":[1000000,50000000],"vco_in":[1000000,2000000],"vco":[100000000,432000000],"sysclk":168000000,"pclk1":42000000,"pclk2":84000000},"scales":[{"vos":1,"max":168000000},{"vos":2,"max":144000000}],"flash":[{"from":2700,"to":3600,"prefetch":true,"rows":[30000000,60000000,90000000,120000000,150000000,168000000]}],"defaults":{"src":"HSI","psrc":"HSE","hpre":1,"p":2,"m":16,"n":192,"q":4,"ppre1":1,"ppre2":1,"vos":1,"hse":8000000}}"#
}

fn tables(alloc: Global) -> Result<Tables, Refusal<TableFault>> {
    read_tables(alloc, table().as_bytes())
}

/// A crystal of 8 MHz, where its input is taken.
fn facts(osc_in: bool) -> Facts
    ensures { result.hse_hz < 4294967296 }
{
    Facts {
        hse_hz: 8_000_000,
        osc_in,
        bypass: false,
        need48: false,
        exact48: false,
        most48: false,
        floor: 0,
        vdd: 3300,
        hclk: None,
        pclk1: None,
        pclk2: None,
    }
}

/// The crystal feeds the PLLs over this M.
fn home(m: u8) -> ClockChoice
    requires low { 2 ≤ m }
    requires high { m ≤ 63 }
    ensures { IsInRange result }
{
    ClockChoice {
        src: Src::Pll,
        psrc: Src::Hse,
        hpre: 1,
        p: 2,
        m,
        n: 336,
        q: 7,
        ppre1: 4,
        ppre2: 2,
        vos: 1,
    }
}

/// The status and the text for 48,000 samples a second.
pub(crate) fn answered(alloc: Global, osc_in: bool, m: u8) -> Result<(u8, Vec<u8>), Fail>
    requires low { 2 ≤ m }
    requires high { m ≤ 63 }
{
    let tables = tables(alloc)?;
    let a = i2s_answer(alloc, &tables, &facts(osc_in), &home(m), 48_000)?;
    let text = Vec::from_slice(alloc, a.text.as_slice())?;
    Ok((a.status.number(), text))
}

/// What is seen of a run: what the last step answered, how many steps it took, whether each state was legal, and I2SCLK in whole
/// hertz, 0 where the PLLI2S is off.
#[derive(Clone, Copy, Debug, PartialEq, Eq)]
pub(crate) struct Seen {
    pub last: I2sStep,
    pub steps: u32,
    pub legal: bool,
    pub i2sclk: u64,
}

fn reset(t: &Tables) -> I2sMachine {
    I2sMachine::reset(t, &facts(true), &home(8))
}

fn is_legal(m: &I2sMachine) -> bool {
    m.legal()
}

fn hertz(m: &I2sMachine) -> u64 {
    match m.i2sclk() {
        None => 0,
        Some(x) => x.floor(),
    }
}

fn stepped(m: &mut I2sMachine, op: I2sOp, ready: bool) -> I2sStep {
    m.step(op, ready)
}

/// An op until it is no longer waited for.
fn ended(m: &mut I2sMachine, op: I2sOp, ready: bool) -> Seen {
    let mut legal = true;
    for before in 0..20_000u32 {
        let last = stepped(m, op, ready);
        legal = is_legal(m) && legal;
        if last != I2sStep::Waiting {
            return Seen {
                last,
                steps: before + 1,
                legal,
                i2sclk: hertz(m),
            };
        }
    }
    Seen {
        last: I2sStep::Waiting,
        steps: 20_000,
        legal,
        i2sclk: hertz(m),
    }
}

/// Ops from reset, each with the same flag.
pub(crate) fn ran(alloc: Global, ops: [I2sOp; 3], ready: bool) -> Result<[Seen; 3], Fail> {
    let tables = tables(alloc)?;
    let mut m = reset(&tables);
    let first = ended(&mut m, ops[0], ready);
    let second = ended(&mut m, ops[1], ready);
    let third = ended(&mut m, ops[2], ready);
    Ok([first, second, third])
}

/// The writes for 48,000 samples a second.
pub(crate) fn writes() -> [I2sOp; 3] {
    i2s_writes(&I2s {
        n: 172,
        r: 2,
        div: 3,
        odd: 1,
    })
}
