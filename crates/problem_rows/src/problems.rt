//! Problems of a small table: what is too wide, and which choices meet the limits. Tests hold what a row answers, and no
//! problem.
ghost use Rattle.std.specs.Prelude.{◌<◌, ◌^◌, true, IfOk};
ghost use Rattle.choice_rank.specs.Choices.{IsChoice};
ghost use Rattle.ioc_project.specs.Read.{IsRead};

use choice_rank::ShapeFault;
use ioc_project::read_project;
use ioc_text::{Ioc, read_ioc};
use mcu_tables::{Tables, read_tables};
use problem::{Part, Problem, build};
use refusal::Refusal;
use res_base::{Items, OutOfMemory, Text};
use res_model::{ClockChoice, Free, Mode, Opts, PinUse, Project, Src};
use std::alloc::Global;

/// Two pins, and a signal that can be at each. PCLK1 is SYSCLK or half of it, and every other divider has one value.
fn table() -> &'static str {
    r#"{"version":1,"names":["M"],"package":"K","pins":["PA0","PA1"],"signals":[{"name":"X4","use":"alt","at":[["PA0",1],["PA1",1]]}],"hse_in":"I","hse_out":"O","ips":[],"clock":{"m":[16,16],"n":[168,168],"p":[2],"q":[7,7],"hpre":[1],"ppre1":[1,2],"ppre2":[1],"vos":[1]},"limits":{"crystal":[4000000,26000000],"bypass":[1000000,50000000],"vco_in":[1000000,2000000],"vco":[100000000,432000000],"sysclk":168000000,"pclk1":42000000,"pclk2":84000000},"scales":[{"vos":1,"max":168000000}],"flash":[{"from":2700,"to":3600,"prefetch":true,"rows":[90000000]}],"defaults":{"src":"HSI","psrc":"HSI","hpre":1,"p":2,"m":16,"n":168,"q":7,"ppre1":1,"ppre2":1,"vos":1,"hse":8000000}}"#
}

/// The PLL at 84 MHz, with half of it for APB1.
fn lines() -> &'static str {
    "Mcu.Name=M\nRCC.SYSCLKSource=RCC_SYSCLKSOURCE_PLLCLK\nRCC.APB1CLKDivider=RCC_HCLK_DIV2"
}

fn row(pin: u8) -> PinUse {
    PinUse {
        pin,
        mode: Mode::Alt(1),
    }
}

/// So many needs of the signal, with each variable free.
fn options(alloc: Global, count: usize) -> Result<Opts, OutOfMemory> {
    let mut needs = Items::of(Vec::new(alloc));
    for _ in 0..count {
        needs.push(Text::copy(alloc, "X4")?)?;
    }
    Ok(Opts {
        vdd: 3300,
        needs,
        hclk: None,
        pclk1: None,
        pclk2: None,
        free: Free::All,
    })
}

fn tables(alloc: Global) -> Option<Tables> {
    read_tables(alloc, table().as_bytes()).ok()
}

fn ioc(alloc: Global) -> Option<Ioc> {
    let text = lines().as_bytes();
    if text.len() > 1000 {
        return None;
    }
    read_ioc(alloc, text).ok()
}

/// The problem of a project that was read, or why there is none.
fn built(
    alloc: Global,
    t: Tables,
    p: Project,
    opts: &Opts,
    part: Part,
) -> Result<Problem, Refusal<ShapeFault>>
    requires read { IsRead t opts.now true p }
    requires hertz { p.hse_hz < 2 ^ 32 }
{
    match part {
        Part::PinsOnly => build(alloc, t, p, opts, Part::PinsOnly),
        Part::Whole => build(alloc, t, p, opts, Part::Whole),
    }
}

/// The same, where the frequency of the HSE is a possible one.
fn with_hertz(
    alloc: Global,
    t: Tables,
    p: Project,
    opts: &Opts,
    part: Part,
) -> Option<Result<Problem, Refusal<ShapeFault>>>
    requires { IsRead t opts.now true p }
{
    if p.hse_hz < 4_294_967_296 {
        Some(built(alloc, t, p, opts, part))
    } else {
        None
    }
}

/// The problem of a project of these lines, or why there is none.
fn of_lines(
    alloc: Global,
    t: Tables,
    lines: &Ioc,
    opts: &Opts,
    part: Part,
) -> Option<Result<Problem, Refusal<ShapeFault>>> {
    match read_project(alloc, &t, lines, opts, true) {
        Ok(p) => with_hertz(alloc, t, p, opts, part),
        Err(_) => None,
    }
}

/// The problem of so many needs, or why there is none.
fn made(alloc: Global, count: usize, part: Part) -> Option<Result<Problem, Refusal<ShapeFault>>> {
    let opts = options(alloc, count).ok()?;
    let ioc = ioc(alloc)?;
    of_lines(alloc, tables(alloc)?, &ioc, &opts, part)
}

fn problem(alloc: Global, count: usize, part: Part) -> Option<Problem> {
    made(alloc, count, part)?.ok()
}

/// The choice of a rank.
fn choice(alloc: Global, p: &Problem, rank: u64) -> Result<Vec<u16>, OutOfMemory>
    ensures { IfOk result (λ at. IsChoice p.now.shape at.items) }
{
    let shape = &p.parts().shape;
    let mut at = vec![in alloc; 0; shape.vars().len()]?;
    let _ = shape.unrank_into(rank, at.as_mut_slice());
    Ok(at)
}

/// Sixty-three of them have 2^63 choices, which cost nothing, so all their ranks are below 2^63.
fn sixty_four_variables_of_two_values_are_too_wide(alloc: Global) -> bool {
    match made(alloc, 64, Part::PinsOnly) {
        Some(Err(Refusal::Fault(ShapeFault::TooWide { variable }))) => variable == 63,
        _ => false,
    }
}

/// Whether the choice of a rank meets the limits of a problem.
fn fits(alloc: Global, count: usize, part: Part, rank: u64) -> Option<bool> {
    let p = problem(alloc, count, part)?;
    let at = choice(alloc, &p, rank).ok()?;
    Some(p.meets(at.as_slice()))
}

/// Two needs at two pins: their positions are the digits of a rank to the base 2.
fn two_signals_on_one_pin_do_not_fit(alloc: Global) -> bool {
    let same = fits(alloc, 2, Part::PinsOnly, 0);
    let apart = fits(alloc, 2, Part::PinsOnly, 1);
    same == Some(false) && apart == Some(true)
}

/// The use of the second of two needs in the choice of a rank.
fn second_use(alloc: Global, rank: u64) -> Option<PinUse> {
    let p = problem(alloc, 2, Part::PinsOnly)?;
    if p.parts().signals.len() < 2 {
        return None;
    }
    let at = choice(alloc, &p, rank).ok()?;
    Some(p.use_of(at.as_slice(), 1))
}

fn the_second_signal_is_at_the_second_pin(alloc: Global) -> bool {
    second_use(alloc, 1) == Some(row(1))
}

/// All homes, which cost nothing, and the choice whose PCLK1 is SYSCLK, at a cost of 1 and index 1 of 12.
fn pclk1_above_its_limit_does_not_fit(alloc: Global) -> bool {
    let home = fits(alloc, 0, Part::Whole, 0);
    let fast = fits(alloc, 0, Part::Whole, 13);
    home == Some(true) && fast == Some(false)
}

/// The clocks of the choice of a rank.
fn clocks(alloc: Global, rank: u64) -> Option<ClockChoice> {
    let p = problem(alloc, 0, Part::Whole)?;
    if p.parts().first == 0 {
        return None;
    }
    let at = choice(alloc, &p, rank).ok()?;
    Some(p.clock_of(at.as_slice()))
}

fn the_clocks_of_a_choice_are_its_values(alloc: Global) -> bool {
    match clocks(alloc, 13) {
        Some(c) => c.src == Src::Pll && c.psrc == Src::Hsi && c.n == 168 && c.ppre1 == 1,
        None => false,
    }
}

#[test]
fn problems_of_a_small_table(rt: HostRuntime) {
    assert!(rt; sixty_four_variables_of_two_values_are_too_wide(rt.alloc()));
    assert!(rt; two_signals_on_one_pin_do_not_fit(rt.alloc()));
    assert!(rt; the_second_signal_is_at_the_second_pin(rt.alloc()));
    assert!(rt; pclk1_above_its_limit_does_not_fit(rt.alloc()));
    assert!(rt; the_clocks_of_a_choice_are_its_values(rt.alloc()));
}
