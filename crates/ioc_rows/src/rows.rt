//! Projects that are written back. Expected texts are worked by hand. A row is a function that answers whether all is as
//! expected, and tests hold rows alone.
ghost use Rattle.std.specs.Prelude.{◌≢◌, ◌<◌, ◌^◌, true, IfOk};
ghost use Rattle.choice_rank.specs.Choices.{IsChoice};
ghost use Rattle.ioc_project.specs.Read.{IsRead};

use box_judge::PinClockJudge;
use choice_rank::ShapeFault;
use ioc_project::read_project;
use ioc_text::{Ioc, read_ioc};
use ioc_write::{BackFault, write_back};
use mcu_tables::{Tables, read_tables};
use problem::{Part, Problem, build};
use refusal::Refusal;
use res_base::{Items, OutOfMemory, Text};
use res_model::{Free, Opts, Project};
use serial_search::search;
use std::alloc::Global;

/// Five pins, of which one has a name with a colon. PLLP can be 2, 4 or 6, and APB1 be divided by 1 or 2. The PLL runs at
/// 192 MHz, HCLK may be 90 MHz, and PCLK1 42 MHz.
fn table() -> &'static str {
    r#"{"version":1,"names":["M"],"package":"K","pins":["PA9","PB6","PB8","PC0:X","PC1"],"signals":[{"name":"TX","use":"alt","at":[["PA9",7],["PB6",7]]},{"name":"SCL","use":"alt","at":[["PB6",4],["PB8",4]]},{"name":"SDA","use":"alt","at":[["PC0:X",4]]},{"name":"MV","use":"alt","at":[["PC0:X",1],["PC1",1]]},{"name":"S1","use":"alt","at":[["PC1",2]]},{"name":"OUT","use":"output"}],"hse_in":"I","hse_out":"O","ips":[],"clock":{"m":[16,16],"n":[192,192],"p":[2,4,6],"q":[4,4],"hpre":[1],"ppre1":[1,2],"ppre2":[1],"vos":[1]},"limits":{"crystal":[4000000,26000000],"bypass":[1000000,50000000],"vco_in":[1000000,2000000],"vco":[100000000,432000000],"sysclk":168000000,"pclk1":42000000,"pclk2":84000000},"scales":[{"vos":1,"max":168000000}],"flash":[{"from":2700,"to":3600,"prefetch":true,"rows":[90000000]}],"defaults":{"src":"HSI","psrc":"HSI","hpre":1,"p":2,"m":16,"n":192,"q":4,"ppre1":1,"ppre2":1,"vos":1,"hse":8000000}}"#
}

fn tables(alloc: Global) -> Option<Tables> {
    read_tables(alloc, table().as_bytes()).ok()
}

/// These needs and this wish for HCLK, with each variable free.
fn options(alloc: Global, names: &[&str], hclk: Option<u64>) -> Result<Opts, OutOfMemory> {
    let mut needs = Items::of(Vec::new(alloc));
    for name in names {
        needs.push(Text::copy(alloc, name)?)?;
    }
    Ok(Opts {
        vdd: 3300,
        needs,
        hclk,
        pclk1: None,
        pclk2: None,
        free: Free::All,
    })
}

fn ioc(alloc: Global, text: &str) -> Option<Ioc> {
    let bytes = text.as_bytes();
    if bytes.len() > 100_000 {
        return None;
    }
    read_ioc(alloc, bytes).ok()
}

/// The problem of a project that was read, or why there is none.
fn built(alloc: Global, t: Tables, p: Project, opts: &Opts) -> Result<Problem, Refusal<ShapeFault>>
    requires read { IsRead t opts.now true p }
    requires hertz { p.hse_hz < 2 ^ 32 }
{
    build(alloc, t, p, opts, Part::Whole)
}

/// The same, where the frequency of the HSE is a possible one.
fn with_hertz(alloc: Global, t: Tables, p: Project, opts: &Opts) -> Option<Problem>
    requires { IsRead t opts.now true p }
{
    if p.hse_hz < 4_294_967_296 {
        built(alloc, t, p, opts).ok()
    } else {
        None
    }
}

/// The problem of a project of these lines.
fn of_lines(alloc: Global, t: Tables, lines: &Ioc, opts: &Opts) -> Option<Problem> {
    match read_project(alloc, &t, lines, opts, true) {
        Ok(p) => with_hertz(alloc, t, p, opts),
        Err(_) => None,
    }
}

fn problem(alloc: Global, text: &str, names: &[&str], hclk: Option<u64>) -> Option<Problem> {
    let opts = options(alloc, names, hclk).ok()?;
    let ioc = ioc(alloc, text)?;
    of_lines(alloc, tables(alloc)?, &ioc, &opts)
}

/// The choice of a rank.
fn choice(alloc: Global, p: &Problem, rank: u64) -> Result<Vec<u16>, OutOfMemory>
    ensures { IfOk result (λ at. IsChoice p.now.shape at.items) }
{
    let shape = &p.parts().shape;
    let mut at = vec![in alloc; 0; shape.vars().len()]?;
    let _ = shape.unrank_into(rank, at.as_mut_slice());
    Ok(at)
}

/// A project with the choice of a rank.
fn with_rank(
    alloc: Global,
    text: &str,
    p: &Problem,
    rank: u64,
) -> Result<Vec<u8>, Refusal<BackFault>>
    requires { p.now.first ≢ 0 }
{
    let at = choice(alloc, p, rank)?;
    if text.as_bytes().len() > 100_000 {
        return Err(Refusal::OutOfMemory);
    }
    write_back(alloc, text.as_bytes(), p, at.as_slice())
}

fn judge(alloc: Global, p: Problem) -> Option<PinClockJudge> {
    if p.parts().first == 0 {
        return None;
    }
    PinClockJudge::new(alloc, p).ok()
}

/// The least rank of a legal choice.
fn least(alloc: Global, judge: &PinClockJudge) -> Option<u64> {
    search(alloc, judge).ok()?.best
}

/// A project with its least choice.
fn with_least(
    alloc: Global,
    text: &str,
    p: Problem,
) -> Option<Result<Vec<u8>, Refusal<BackFault>>> {
    let judge = judge(alloc, p)?;
    let rank = least(alloc, &judge)?;
    if judge.problem().parts().first == 0 {
        return None;
    }
    Some(with_rank(alloc, text, judge.problem(), rank))
}

fn written(
    alloc: Global,
    text: &str,
    names: &[&str],
    hclk: Option<u64>,
) -> Option<Result<Vec<u8>, Refusal<BackFault>>> {
    with_least(alloc, text, problem(alloc, text, names, hclk)?)
}

/// Whether a project with needs, a wish for HCLK and its least choice has this text.
fn gives_at(alloc: Global, text: &str, names: &[&str], hclk: Option<u64>, expected: &str) -> bool {
    match written(alloc, text, names, hclk) {
        Some(Ok(out)) => out.as_slice() == expected.as_bytes(),
        _ => false,
    }
}

/// Whether needs of a project with a pin of this number can be numbered, or not, as expected.
fn is_numbered(alloc: Global, text: &str, names: &[&str], expected: bool) -> bool {
    match written(alloc, text, names, None) {
        Some(Ok(_)) => expected,
        Some(Err(Refusal::Fault(BackFault::NoNumber))) => !expected,
        _ => false,
    }
}

/// Whether this is the line of a project that would get too long, or 0 where there is none.
fn long_line_is(alloc: Global, text: &str, expected: u32) -> bool {
    match written(alloc, text, &["S1"], None) {
        Some(Ok(_)) => expected == 0,
        Some(Err(Refusal::Fault(BackFault::LongLine { line }))) => line == expected,
        _ => false,
    }
}

fn gives(alloc: Global, text: &str, names: &[&str], expected: &str) -> bool {
    gives_at(alloc, text, names, None, expected)
}

/// USART1_TX of a board goes along with its lines, and the need is appended.
fn a_signal_moves_with_its_lines_and_a_need_is_appended(alloc: Global) -> bool {
    let text = "Mcu.Name=M\nMcu.Pin0=PB6\nPB6.Signal=TX\nMcu.Pin1=PB8\nPB8.Signal=OUT\n";
    let moved =
        "Mcu.Name=M\nMcu.Pin0=PA9\nPA9.Signal=TX\nMcu.Pin1=PB8\nPB8.Signal=OUT\nMcu.Pin2=PB6\nPB6.Signal=SCL\n";
    gives(alloc, text, &["SCL"], moved) && gives(alloc, moved, &[], moved)
}

/// The PLL's output would be 96 MHz: PLLP becomes 6, and its key is appended behind a line without an end.
fn an_absent_clock_key_is_appended(alloc: Global) -> bool {
    let text = "Mcu.Name=M\nRCC.SYSCLKSource=RCC_SYSCLKSOURCE_PLLCLK";
    let slow = "Mcu.Name=M\nRCC.SYSCLKSource=RCC_SYSCLKSOURCE_PLLCLK\nRCC.PLLP=RCC_PLLP_DIV6\n";
    gives(alloc, text, &[], slow) && gives(alloc, slow, &[], slow)
}

/// 48 MHz is a quarter of the VCO, and too fast for APB1.
fn appended_clock_keys_stand_in_the_order_of_the_variables(alloc: Global) -> bool {
    let text = "Mcu.Name=M\nRCC.SYSCLKSource=RCC_SYSCLKSOURCE_PLLCLK\n";
    let out =
        "Mcu.Name=M\nRCC.SYSCLKSource=RCC_SYSCLKSOURCE_PLLCLK\nRCC.PLLP=RCC_PLLP_DIV4\nRCC.APB1CLKDivider=RCC_HCLK_DIV2\n";
    gives_at(alloc, text, &[], Some(48_000_000), out)
}

fn changed_lines_keep_their_ends_and_pins_are_counted(alloc: Global) -> bool {
    let text =
        "# Mcu.Pin0=PB6\r\nMcu.Name=M\r\nMcu.Pin0=PB6\r\nMcu.Pin1=VP_X\nMcu.Pin2=PB8\nPB8.Signal=OUT\nMcu.PinsNb=2\r\nPB6.Signal=TX\nPB6.GPIO_Label=a \\q=b\r\nRCC.PLLP=RCC_PLLP_DIV2\r\nRCC.SYSCLKSource=RCC_SYSCLKSOURCE_PLLCLK\r\n\r\n";
    let out =
        "# Mcu.Pin0=PB6\r\nMcu.Name=M\r\nMcu.Pin0=PA9\r\nMcu.Pin1=VP_X\nMcu.Pin2=PB8\nPB8.Signal=OUT\nMcu.PinsNb=4\r\nPA9.Signal=TX\nPA9.GPIO_Label=a \\q=b\r\nRCC.PLLP=RCC_PLLP_DIV6\r\nRCC.SYSCLKSource=RCC_SYSCLKSOURCE_PLLCLK\r\n\r\nMcu.Pin3=PB6\nPB6.Signal=SCL\n";
    gives(alloc, text, &["SCL"], out)
}

/// PA9 was no home, so what stands of it goes. A key with a bad escape stays, and so does one that is of no pin.
fn lines_of_a_pin_that_is_taken_are_dropped(alloc: Global) -> bool {
    let text =
        "Mcu.Name=M\nPA9.GPIO_Label=x\nPA9.Signal=nothing\nMcu.Pin0=PB6\nPB6.Signal=TX\nPB6.\\q=1\nMcu.Pin007=PB6\nPB6=2\nPB60.Locked=no\nMcu.Pin1=PB8\nPB8.Signal=OUT\n";
    let out =
        "Mcu.Name=M\nMcu.Pin0=PA9\nPA9.Signal=TX\nPB6.\\q=1\nMcu.Pin007=PB6\nPB6=2\nPB60.Locked=no\nMcu.Pin1=PB8\nPB8.Signal=OUT\nMcu.Pin2=PB6\nPB6.Signal=SCL\n";
    gives(alloc, text, &["SCL"], out)
}

fn names_are_read_and_written_with_escapes(alloc: Global) -> bool {
    let text =
        "Mcu.Name=M\nMcu.Pin3=PC0\\:X\nPC0\\:X.Signal=MV\nP\\C1.Locked=x\nPC0\\:X.GPIO\\=.Label=\\:\n";
    let away =
        "Mcu.Name=M\nMcu.Pin3=PC1\nPC1.Signal=MV\nP\\C1.Locked=x\nPC0\\:X.GPIO\\=.Label=\\:\nMcu.Pin4=PC0\\:X\nPC0\\:X.Signal=SDA\n";
    let there = "Mcu.Name=M\nMcu.Pin3=PC1\nPC1.Signal=MV\n";
    let back = "Mcu.Name=M\nMcu.Pin3=PC0\\:X\nPC0\\:X.Signal=MV\nMcu.Pin4=PC1\nPC1.Signal=S1\n";
    gives(alloc, text, &["SDA"], away) && gives(alloc, there, &["S1"], back)
}

#[test]
fn projects_are_written_back(rt: HostRuntime) {
    assert!(rt; a_signal_moves_with_its_lines_and_a_need_is_appended(rt.alloc()));
    assert!(rt; an_absent_clock_key_is_appended(rt.alloc()));
    assert!(rt; appended_clock_keys_stand_in_the_order_of_the_variables(rt.alloc()));
    assert!(rt; changed_lines_keep_their_ends_and_pins_are_counted(rt.alloc()));
    assert!(rt; lines_of_a_pin_that_is_taken_are_dropped(rt.alloc()));
    assert!(rt; names_are_read_and_written_with_escapes(rt.alloc()));
}

fn needs_are_numbered_up_to_the_last_number(alloc: Global) -> bool {
    let last = "Mcu.Name=M\nMcu.Pin18446744073709551615=PB8\nPB8.Signal=OUT\n";
    let one_left = "Mcu.Name=M\nMcu.Pin18446744073709551614=PB8\nPB8.Signal=OUT\n";
    is_numbered(alloc, last, &["TX"], false)
        && is_numbered(alloc, last, &[], true)
        && is_numbered(alloc, one_left, &["TX"], true)
        && is_numbered(alloc, one_left, &["TX", "SCL"], false)
}

/// A project whose fourth line has so many bytes, and gets three more where its signal moves.
fn long_text(alloc: Global, bytes: usize) -> Result<String, OutOfMemory> {
    let mut text = String::from_str(
        alloc,
        "Mcu.Name=M\nMcu.Pin0=PC1\nPC1.Signal=MV\nPC1.GPIO_Label=",
    )?;
    for _ in 15..bytes {
        text.push_str("x")?;
    }
    Ok(text)
}

/// Whether a fourth line of so many bytes is refused, or not, as expected.
fn is_refused(alloc: Global, bytes: usize, line: u32) -> bool {
    match long_text(alloc, bytes) {
        Ok(text) => long_line_is(alloc, text.as_str(), line),
        Err(_) => false,
    }
}

fn a_line_that_would_get_too_long_is_refused(alloc: Global) -> bool {
    is_refused(alloc, 65_532, 0) && is_refused(alloc, 65_533, 4)
}

#[test]
fn what_cannot_be_written_back_is_refused(rt: HostRuntime) {
    assert!(rt; needs_are_numbered_up_to_the_last_number(rt.alloc()));
    assert!(rt; a_line_that_would_get_too_long_is_refused(rt.alloc()));
}
