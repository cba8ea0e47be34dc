//! The rows.
use crate::asked::traced;
use refusal::Refusal;
use reg_trace::{AnswerFault, read_answers};
use std::alloc::Global;
use std::test::Fail;
use text_lines::{ended_line, first_field, first_line};

/// The report of an empty project, to its last line.
fn bare() -> &'static [u8] {
    b"limits met
#include <stdint.h>
#define REG(a) (*(volatile uint32_t *)(a))
enum { DONE, HSE_TIMEOUT, PLL_TIMEOUT, LATENCY_TIMEOUT, SWITCH_TIMEOUT };
int board_init(void)
{
    uint32_t polls;
    REG(0x40023C00u) = 0x00000700u;
    for (polls = 0u; (REG(0x40023C00u) & 0x00000007u) != 0x00000000u; ) { if (++polls == 1000u) return LATENCY_TIMEOUT; }
    REG(0x40023808u) = (REG(0x40023808u) & ~0x0000FCF0u) | 0x00000000u;
    return DONE;
}
proof 1
"
}

/// The first accesses of a project with a crystal.
fn crystal() -> &'static [u8] {
    b"#include <stdint.h>
#define REG(a) (*(volatile uint32_t *)(a))
enum { DONE, HSE_TIMEOUT, PLL_TIMEOUT, LATENCY_TIMEOUT, SWITCH_TIMEOUT };
int board_init(void)
{
    uint32_t polls;
    REG(0x40023800u) = (REG(0x40023800u) & ~0x00000000u) | 0x00010000u;
    for (polls = 0u; (REG(0x40023800u) & 0x00020000u) != 0x00020000u; ) { if (++polls == 100u) return HSE_TIMEOUT; }
    return DONE;
}
"
}

fn is_told(
    alloc: Global,
    osc_in: bool,
    file: &[u8],
    answers: &[u8],
    status: u8,
    text: &[u8],
) -> Result<bool, Fail> {
    let (is_status, is_text) = traced(alloc, osc_in, file, answers)?;
    Ok(is_status == status && is_text.as_slice() == text)
}

#[test]
fn each_access_has_a_line(rt: HostRuntime) -> Result<(), Fail> {
    let text =
        b"1 0x40023C00 0x00000700 HSI 0 legal\n2 0x40023C00 0x00000700 HSI 0 legal\n3 0x40023808 0x00000000 HSI 0 legal\ndone legal\n";
    assert!(rt; is_told(rt.alloc(), false, bare(), b"10 hpls\n", 0, text.as_slice())?);
    Ok(())
}

#[test]
fn an_await_times_out_without_its_flag(rt: HostRuntime) -> Result<(), Fail> {
    let text = b"1 0x40023800 0x00010083 HSI 0 legal\ntimeout HSE_TIMEOUT legal\n";
    assert!(rt; is_told(rt.alloc(), true, crystal(), b"", 0, text.as_slice())?);
    Ok(())
}

#[test]
fn what_is_refused_is_told_by_its_line(rt: HostRuntime) -> Result<(), Fail> {
    let alloc = rt.alloc();
    assert!(rt; is_told(alloc, false, bare(), b"10 lh\n", 15, b"answers: line 1\n")?);
    assert!(rt;
        is_told(
            alloc,
            false,
            b"limits met\n",
            b"10 lh\n",
            14,
            b"c: line 2\n"
        )?
    );
    Ok(())
}

#[test]
fn what_is_forbidden_ends_the_run(rt: HostRuntime) -> Result<(), Fail> {
    let text = b"forbidden 3 legal\n";
    assert!(rt; is_told(rt.alloc(), false, crystal(), b"", 0, text.as_slice())?);
    Ok(())
}

/// How many answers a text says, or the line at which it is refused.
fn count(alloc: Global, text: &[u8]) -> Result<usize, u32> {
    match read_answers(alloc, text) {
        Ok(answers) => Ok(answers.len()),
        Err(Refusal::Fault(AnswerFault::Line { line })) => Err(line),
        Err(Refusal::OutOfMemory) => Err(0),
    }
}

#[test]
fn answers_are_read_to_the_first_fault(rt: HostRuntime) -> Result<(), Fail> {
    let alloc = rt.alloc();
    assert_eq!(rt; count(alloc, b""), Ok(0));
    assert_eq!(rt; count(alloc, b"10 hpls\n2 -\n"), Ok(12));
    assert_eq!(rt; count(alloc, b"10 lh\n"), Err(1));
    assert_eq!(rt; count(alloc, b"1 -\n0 h\n"), Err(2));
    assert_eq!(rt; count(alloc, b"1 -\n01 h\n"), Err(2));
    assert_eq!(rt; count(alloc, b"1 -\n1 h"), Err(2));
    assert_eq!(rt; count(alloc, b"1000 -\n1000000 w\n"), Err(2));
    assert_eq!(rt; count(alloc, b"1 \n"), Err(1));
    assert_eq!(rt; count(alloc, b"\n"), Err(1));
    Ok(())
}

#[test]
fn a_text_is_cut_at_its_first_end(rt: HostRuntime) -> Result<(), Fail> {
    let (line, ended, rest) = first_line(b"ab c\nd");
    assert!(rt; ended);
    assert_eq!(rt; line, b"ab c".as_slice());
    assert_eq!(rt; rest, b"d".as_slice());
    assert!(rt; ended_line(b"d").is_none());
    let (field, others) = first_field(b"ab c");
    assert_eq!(rt; field, b"ab".as_slice());
    assert!(rt; others.is_some());
    Ok(())
}
