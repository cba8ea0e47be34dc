//! Accesses as C texts, and the first faulty line of one.
ghost use Rattle.res_base.specs.Lists.{Each};
ghost use Rattle.reg_machine.specs.Words.{IsOp};

use c_print::{CFault, c_text, read_c};
use refusal::Refusal;
use reg_machine::{Op, Timeout};
use reg_map::{GpioReg, Reg};
use std::alloc::Global;
use std::test::Fail;

fn head() -> &'static str {
    "#include <stdint.h>
#define REG(a) (*(volatile uint32_t *)(a))
enum { DONE, HSE_TIMEOUT, PLL_TIMEOUT, LATENCY_TIMEOUT, SWITCH_TIMEOUT };
int board_init(void)
{
    uint32_t polls;
"
}

/// Where over-drive is awaited.
fn head_with_over() -> &'static str {
    "#include <stdint.h>
#define REG(a) (*(volatile uint32_t *)(a))
enum { DONE, HSE_TIMEOUT, PLL_TIMEOUT, LATENCY_TIMEOUT, SWITCH_TIMEOUT, OVER_TIMEOUT, OVER_SWITCH_TIMEOUT };
int board_init(void)
{
    uint32_t polls;
"
}

fn over() -> &'static str {
    "    for (polls = 0u; (REG(0x40007004u) & 0x00010000u) != 0x00010000u; ) { if (++polls == 10000u) return OVER_TIMEOUT; }\n"
}

fn over_switch() -> &'static str {
    "    for (polls = 0u; (REG(0x40007004u) & 0x00020000u) != 0x00020000u; ) { if (++polls == 10000u) return OVER_SWITCH_TIMEOUT; }\n"
}

fn write() -> &'static str {
    "    REG(0x40023C00u) = 0x00000700u;\n"
}

fn wait() -> &'static str {
    "    for (polls = 0u; (REG(0x40023C00u) & 0x00000007u) != 0x00000000u; ) { if (++polls == 1000u) return LATENCY_TIMEOUT; }\n"
}

fn wait_without_polls() -> &'static str {
    "    for (polls = 0u; (REG(0x40023C00u) & 0x00000007u) != 0x00000000u; ) { if (++polls == 0u) return LATENCY_TIMEOUT; }\n"
}

fn modify() -> &'static str {
    "    REG(0x40023808u) = (REG(0x40023808u) & ~0x0000FCF0u) | 0x00000000u;\n"
}

fn modify_of_two() -> &'static str {
    "    REG(0x40023808u) = (REG(0x40023804u) & ~0x0000FCF0u) | 0x00000000u;\n"
}

fn end() -> &'static str {
    "    return DONE;\n}\n"
}

fn lines(
    alloc: Global,
    first: &str,
    second: &str,
    third: &str,
    last: &str,
) -> Result<Vec<u8>, Fail> {
    behind(alloc, head(), first, second, third, last)
}

fn lines_with_over(alloc: Global, first: &str, second: &str, third: &str) -> Result<Vec<u8>, Fail> {
    behind(alloc, head_with_over(), first, second, third, end())
}

fn behind(
    alloc: Global,
    head: &str,
    first: &str,
    second: &str,
    third: &str,
    last: &str,
) -> Result<Vec<u8>, Fail> {
    let mut text = Vec::from_slice(alloc, head.as_bytes())?;
    text.extend_from_slice(first.as_bytes())?;
    text.extend_from_slice(second.as_bytes())?;
    text.extend_from_slice(third.as_bytes())?;
    text.extend_from_slice(last.as_bytes())?;
    Ok(text)
}

fn fault(alloc: Global, text: &[u8]) -> Result<u32, Fail> {
    if text.len() > 10_000 {
        return Err(Fail::from("a long text"));
    }
    match read_c(alloc, text) {
        Ok(_) => Err(Fail::from("a faulty text is read")),
        Err(Refusal::Fault(CFault::Line { line })) => Ok(line),
        Err(Refusal::OutOfMemory) => Err(Fail::from("no memory")),
    }
}

fn worked() -> [Op; 3]
    ensures { Each IsOp result }
{
    [
        Op::Write {
            reg: Reg::Acr,
            value: 0x700,
        },
        Op::Await {
            reg: Reg::Acr,
            mask: 7,
            want: 0,
            polls: 1000,
            name: Timeout::Latency,
        },
        Op::Modify {
            reg: Reg::Cfgr,
            clear: 0xFCF0,
            set: 0,
        },
    ]
}

#[test]
fn three_accesses_are_read_again(rt: HostRuntime) -> Result<(), Fail> {
    let text = lines(rt.alloc(), write(), wait(), modify(), end())?;
    let few = text.len() < 1000;
    assert!(rt; few);
    let read = read_c(rt.alloc(), text.as_slice())?;
    assert_eq!(rt; read.as_slice(), worked().as_slice());
    Ok(())
}

#[test]
fn three_accesses_are_printed(rt: HostRuntime) -> Result<(), Fail> {
    let printed = c_text(rt.alloc(), &worked())?;
    let text = lines(rt.alloc(), write(), wait(), modify(), end())?;
    assert_eq!(rt; printed.as_slice(), text.as_slice());
    Ok(())
}

#[test]
fn a_read_is_a_line(rt: HostRuntime) -> Result<(), Fail> {
    let reg = Reg::Gpio {
        port: 8,
        kind: GpioReg::Afrh,
    };
    let printed = c_text(rt.alloc(), &[Op::Read { reg }])?;
    let text = lines(rt.alloc(), "    (void)REG(0x40022024u);\n", "", "", end())?;
    assert_eq!(rt; printed.as_slice(), text.as_slice());
    Ok(())
}

/// The awaits of over-drive, behind a write.
fn with_over() -> [Op; 3]
    ensures { Each IsOp result }
{
    [
        Op::Write {
            reg: Reg::Acr,
            value: 0x700,
        },
        Op::Await {
            reg: Reg::PwrCsr,
            mask: 0x0001_0000,
            want: 0x0001_0000,
            polls: 10_000,
            name: Timeout::Over,
        },
        Op::Await {
            reg: Reg::PwrCsr,
            mask: 0x0002_0000,
            want: 0x0002_0000,
            polls: 10_000,
            name: Timeout::OverSwitch,
        },
    ]
}

#[test]
fn awaits_of_over_drive_are_read_again(rt: HostRuntime) -> Result<(), Fail> {
    let text = lines_with_over(rt.alloc(), write(), over(), over_switch())?;
    let few = text.len() < 1000;
    assert!(rt; few);
    let read = read_c(rt.alloc(), text.as_slice())?;
    assert_eq!(rt; read.as_slice(), with_over().as_slice());
    Ok(())
}

#[test]
fn awaits_of_over_drive_have_their_third_line(rt: HostRuntime) -> Result<(), Fail> {
    let printed = c_text(rt.alloc(), &with_over())?;
    let text = lines_with_over(rt.alloc(), write(), over(), over_switch())?;
    assert_eq!(rt; printed.as_slice(), text.as_slice());
    Ok(())
}

#[test]
fn a_name_that_the_third_line_lacks_is_a_fault_at_its_line(rt: HostRuntime) -> Result<(), Fail> {
    let alloc = rt.alloc();
    let text = lines(alloc, write(), wait(), over(), end())?;
    assert_eq!(rt; fault(alloc, text.as_slice())?, 9, "OVER_TIMEOUT");
    let text = lines(alloc, over_switch(), write(), wait(), end())?;
    assert_eq!(rt; fault(alloc, text.as_slice())?, 7, "OVER_SWITCH_TIMEOUT");
    Ok(())
}

#[test]
fn the_end_is_not_due_where_no_access_awaits_over_drive(rt: HostRuntime) -> Result<(), Fail> {
    let alloc = rt.alloc();
    let text = lines_with_over(alloc, write(), wait(), modify())?;
    assert_eq!(rt; fault(alloc, text.as_slice())?, 10);
    let text = lines_with_over(alloc, "", "", "")?;
    assert_eq!(rt; fault(alloc, text.as_slice())?, 7);
    let text = lines_with_over(alloc, over(), write(), wait())?;
    let few = text.len() < 1000;
    assert!(rt; few);
    let read = read_c(alloc, text.as_slice())?;
    assert_eq!(rt; read.len(), 3);
    Ok(())
}

#[test]
fn the_first_faulty_line_is_named(rt: HostRuntime) -> Result<(), Fail> {
    let alloc = rt.alloc();
    let lower = "    REG(0x40023c00u) = 0x00000700u;\n";
    let text = lines(alloc, lower, wait(), modify(), end())?;
    assert_eq!(rt; fault(alloc, text.as_slice())?, 7, "lower case");
    let none = "    REG(0x40022400u) = 0x00000700u;\n";
    let text = lines(alloc, none, wait(), modify(), end())?;
    assert_eq!(rt; fault(alloc, text.as_slice())?, 7, "no register");
    let text = lines(alloc, write(), wait_without_polls(), modify(), end())?;
    assert_eq!(rt; fault(alloc, text.as_slice())?, 8, "no poll");
    let text = lines(alloc, write(), wait(), modify_of_two(), end())?;
    assert_eq!(rt; fault(alloc, text.as_slice())?, 9, "two registers");
    Ok(())
}

#[test]
fn a_text_that_ends_early_or_late_is_refused(rt: HostRuntime) -> Result<(), Fail> {
    let alloc = rt.alloc();
    assert_eq!(rt; fault(alloc, b"")?, 1, "no line");
    assert_eq!(rt; fault(alloc, b"#include <stdint.h>\r\n")?, 1, "CR LF");
    assert_eq!(rt; fault(alloc, head().as_bytes())?, 7, "the frame alone");
    let text = lines(alloc, write(), wait(), modify(), "}\n")?;
    assert_eq!(rt; fault(alloc, text.as_slice())?, 10, "no return");
    let text = lines(alloc, write(), wait(), modify(), "    return DONE;\n}")?;
    assert_eq!(rt; fault(alloc, text.as_slice())?, 11, "no end of a line");
    let text = lines(alloc, write(), wait(), modify(), "    return DONE;\n}\n\n")?;
    assert_eq!(rt; fault(alloc, text.as_slice())?, 12, "one line more");
    Ok(())
}
