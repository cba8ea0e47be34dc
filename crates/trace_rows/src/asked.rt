//! What is asked, without clauses, so that no test carries the facts of a table.
ghost use Rattle.std.specs.Prelude.{◌<◌};

use mcu_tables::{TableFault, read_tables};
use refusal::Refusal;
use reg_machine::Target;
use res_model::{Facts, Tables};
use std::alloc::Global;
use std::test::Fail;
use trace_answer::trace_answer;

/// A table with the limits of the STM32F407.
fn table() -> &'static str {
    r#"{"version":1,"names":["STM32F407V(E-G)Tx"],"package":"LQFP100","pins":["PH0-OSC_IN"],"signals":[{"name":"RCC_OSC_IN","use":"osc","at":["PH0-OSC_IN"]}],"hse_in":"RCC_OSC_IN","hse_out":"RCC_OSC_OUT","ips":[],"clock":{"m":[2,63],"n":[50,432],"p":[2,4,6,8],"q":[2,15],"hpre":[1,2],"ppre1":[1,2,4],"ppre2":[1,2],"vos":[1,2]},"limits":{"crystal":[4000000,26000000],"bypass":[1000000,50000000],"vco_in":[1000000,2000000],"vco":[100000000,432000000],"sysclk":168000000,"pclk1":42000000,"pclk2":84000000},"scales":[{"vos":1,"max":168000000},{"vos":2,"max":144000000}],"flash":[{"from":2700,"to":3600,"prefetch":true,"rows":[30000000,60000000,90000000,120000000,150000000,168000000]}],"defaults":{"src":"HSI","psrc":"HSE","hpre":1,"p":2,"m":16,"n":192,"q":4,"ppre1":1,"ppre2":1,"vos":1,"hse":8000000}}"#
}

fn tables(alloc: Global) -> Result<Tables, Refusal<TableFault>> {
    read_tables(alloc, table().as_bytes())
}

/// A crystal of 8 MHz, where its input is taken, and no pin.
fn target(osc_in: bool) -> Target
    ensures { result.facts.hse_hz < 4294967296 }
{
    Target {
        facts: Facts {
            hse_hz: 8_000_000,
            osc_in,
            bypass: false,
            need48: false,
            exact48: false,
            most48: false,
            floor: 0,
            vdd: 3300,
            hclk: None,
            pclk1: None,
            pclk2: None,
        },
        pins: [None; 144],
    }
}

/// The status and the text for a file and flag answers.
pub(crate) fn traced(
    alloc: Global,
    osc_in: bool,
    file: &[u8],
    answers: &[u8],
) -> Result<(u8, Vec<u8>), Fail> {
    let tables = tables(alloc)?;
    if file.len() > 65_535 {
        return Ok((0, Vec::new(alloc)));
    }
    let a = trace_answer(alloc, &tables, &target(osc_in), file, answers)?;
    let text = Vec::from_slice(alloc, a.text.as_slice())?;
    Ok((a.status.number(), text))
}
