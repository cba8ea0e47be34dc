//! Boards of a small table: the least choice, why there is none, and what is too wide.
ghost use Rattle.std.specs.Prelude.{◌<◌, ◌^◌, true};
ghost use Rattle.ioc_project.specs.Read.{IsRead};

use answers::{Answer, Status};
use board_fit::board;
use ioc_project::read_project;
use ioc_text::{Ioc, read_ioc};
use mcu_tables::{TableFault, Tables, read_tables};
use refusal::Refusal;
use res_base::{Items, OutOfMemory, Text};
use res_model::{Free, Opts, Project};
use std::alloc::Global;
use std::test::Fail;

/// Two pins, and a signal that can be at each. PCLK1 is SYSCLK or half of it, and every other divider has one value.
fn table() -> &'static str {
    r#"{"version":1,"names":["M"],"package":"K","pins":["PA0","PA1"],"signals":[{"name":"X4","use":"alt","at":[["PA0",1],["PA1",1]]}],"hse_in":"I","hse_out":"O","ips":[],"clock":{"m":[16,16],"n":[168,168],"p":[2],"q":[7,7],"hpre":[1],"ppre1":[1,2],"ppre2":[1],"vos":[1]},"limits":{"crystal":[4000000,26000000],"bypass":[1000000,50000000],"vco_in":[1000000,2000000],"vco":[100000000,432000000],"sysclk":168000000,"pclk1":42000000,"pclk2":84000000},"scales":[{"vos":1,"max":168000000}],"flash":[{"from":2700,"to":3600,"prefetch":true,"rows":[90000000]}],"defaults":{"src":"HSI","psrc":"HSI","hpre":1,"p":2,"m":16,"n":168,"q":7,"ppre1":1,"ppre2":1,"vos":1,"hse":8000000}}"#
}

/// The PLL at 84 MHz, which is too fast for APB1 as it is.
fn lines() -> &'static str {
    "Mcu.Name=M\nRCC.SYSCLKSource=RCC_SYSCLKSOURCE_PLLCLK"
}

/// So many needs of the signal, with each variable free.
fn options(alloc: Global, count: usize, vdd: u32) -> Result<Opts, OutOfMemory> {
    let mut needs = Items::of(Vec::new(alloc));
    for _ in 0..count {
        needs.push(Text::copy(alloc, "X4")?)?;
    }
    Ok(Opts {
        vdd,
        needs,
        hclk: None,
        pclk1: None,
        pclk2: None,
        free: Free::All,
    })
}

fn tables(alloc: Global) -> Result<Tables, Refusal<TableFault>> {
    read_tables(alloc, table().as_bytes())
}

fn ioc(alloc: Global) -> Result<Ioc, Fail> {
    let text = lines().as_bytes();
    if text.len() > 1000 {
        return Err(Fail::from("a long text"));
    }
    Ok(read_ioc(alloc, text)?)
}

/// What the board of a project that was read comes to.
fn told(alloc: Global, t: Tables, p: Project, opts: &Opts) -> Result<Answer, OutOfMemory>
    requires read { IsRead t opts.now true p }
    requires hertz { p.hse_hz < 2 ^ 32 }
{
    board(alloc, t, p, opts)
}

/// What the board of so many needs comes to.
fn found(alloc: Global, count: usize, vdd: u32) -> Result<Answer, Fail> {
    let opts = options(alloc, count, vdd)?;
    let ioc = ioc(alloc)?;
    let t = tables(alloc)?;
    let p = read_project(alloc, &t, &ioc, &opts, true)?;
    if p.hse_hz >= 4_294_967_296 {
        return Err(Fail::from("the frequency of the HSE"));
    }
    Ok(told(alloc, t, p, &opts)?)
}

/// Whether it is of this status, with a text that begins so.
fn begins(
    alloc: Global,
    count: usize,
    vdd: u32,
    status: Status,
    text: &[u8],
) -> Result<bool, Fail> {
    let answer = found(alloc, count, vdd)?;
    Ok(answer.status == status && answer.text.as_slice().starts_with(text))
}

/// Both needs are at the first pins that are left, which costs nothing, and PCLK1 is halved, which costs 1.
#[test]
fn the_cost_is_that_of_pins_and_clocks(rt: HostRuntime) -> Result<(), Fail> {
    let text = b"cost 1\npins 2\nPA0 X4 AF1 need\nPA1 X4 AF1 need\nclock\n".as_slice();
    assert!(rt; begins(rt.alloc(), 2, 3300, Status::Done, text)?);
    Ok(())
}

/// Three signals at two pins, told with the ten clock variables before them, whatever the clocks come to.
#[test]
fn pins_are_refuted_before_clocks(rt: HostRuntime) -> Result<(), Fail> {
    let text = b"proof 1\nbound none\nH pins 10 11 12\nend\n".as_slice();
    assert!(rt; begins(rt.alloc(), 3, 1700, Status::NoChoice, text)?);
    Ok(())
}

/// No flash row serves 1,700 mV.
#[test]
fn clocks_are_refuted_beside_a_placement(rt: HostRuntime) -> Result<(), Fail> {
    let text = b"proof 1\nbound none\nL 13\nend\n".as_slice();
    assert!(rt; begins(rt.alloc(), 2, 1700, Status::NoChoice, text)?);
    Ok(())
}

/// Sixty-three signals of two values have 2^63 choices, which cost nothing, so with the clocks they would be too wide.
#[test]
fn clocks_make_no_board_too_wide(rt: HostRuntime) -> Result<(), Fail> {
    let text = b"proof 1\nbound none\nH pins 10 11 12 ".as_slice();
    assert!(rt; begins(rt.alloc(), 63, 3300, Status::NoChoice, text)?);
    Ok(())
}

/// With one signal more the pins alone are too wide at the last, which is variable 73 of the board.
#[test]
fn the_wide_variable_is_one_of_the_board(rt: HostRuntime) -> Result<(), Fail> {
    let text = b"too wide: variable 73\n".as_slice();
    assert!(rt; begins(rt.alloc(), 64, 3300, Status::TooWide, text)?);
    Ok(())
}
