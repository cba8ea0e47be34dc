//! The lines of a trace.
ghost use Rattle.std.specs.Prelude.{◌≡◌, ◌++◌, decimal, OnOk};
ghost use Rattle.reg_map.specs.Registers.{IsRegister};
ghost use Rattle.reg_machine.specs.Words.{IsOp};
ghost use Rattle.reg_trace.specs.Lines.{OpWent, done_text, end_text, line_text, said_text, source_text, timeout_text};
ghost use Rattle.reg_trace.specs.Trace.{register_of};
ghost use Rattle.reg_trace.specs.Turn.{IsSeen, forbidden_line, seen_line, seen_text};

use crate::hex::word_text;
use crate::turn::Turn;
use itoa::Buffer;
use reg_machine::{Machine, Op, Rule, Stepped, Timeout};
use reg_map::{Reg, addr};
use res_base::OutOfMemory;
use res_model::Src;
use std::alloc::AllocError;

/// The register of an access.
fn register_of(op: &Op) -> Reg
    requires { IsOp op.now }
    ensures is { result ≡ register_of op.now }
    ensures there { IsRegister result }
{
    match *op {
        Op::Write { reg, value: _ } => reg,
        Op::Modify {
            reg,
            clear: _,
            set: _,
        } => reg,
        Op::Read { reg } => reg,
        Op::Await {
            reg,
            mask: _,
            want: _,
            polls: _,
            name: _,
        } => reg,
    }
}

#[tactic(auto, unfolding(crate::specs::Lines::source_text))]
fn source_text(source: Src) -> &'static [u8]
    ensures { result.now ≡ source_text source }
{
    match source {
        Src::Hsi => b" HSI ",
        Src::Hse => b" HSE ",
        Src::Pll => b" PLL ",
    }
}

#[tactic(auto, unfolding(crate::specs::Lines::timeout_text, crate::specs::Lines::timeout_name))]
fn timeout_text(name: Timeout) -> &'static [u8]
    ensures { result.now ≡ timeout_text name }
{
    match name {
        Timeout::Hse => b"timeout HSE_TIMEOUT",
        Timeout::Pll => b"timeout PLL_TIMEOUT",
        Timeout::Latency => b"timeout LATENCY_TIMEOUT",
        Timeout::Switch => b"timeout SWITCH_TIMEOUT",
        Timeout::Over => b"timeout OVER_TIMEOUT",
        Timeout::OverSwitch => b"timeout OVER_SWITCH_TIMEOUT",
    }
}

#[tactic(auto, unfolding(crate::specs::Lines::done_text))]
fn done_text() -> &'static [u8]
    ensures { result.now ≡ done_text }
{
    b"done"
}

#[tactic(auto, unfolding(crate::specs::Lines::end_text))]
fn end_text(legal: bool) -> &'static [u8]
    ensures { result.now ≡ end_text legal }
{
    if legal { b" legal\n" } else { b" illegal\n" }
}

/// Appends the digits of a number. They are made in a buffer on the stack, so that a line takes no memory but the text's.
fn put_number(out: &mut Vec<u8>, n: u32) -> Result<(), AllocError>
    ensures { OnOk result (out.new.items ≡ out.old.items ++ decimal n) }
{
    let mut buffer = Buffer::new();
    out.extend_from_slice(buffer.format(n).as_bytes())
}

/// Appends what is said of an access that was done.
fn put_went(
    out: &mut Vec<u8>,
    number: u32,
    at: u32,
    word: u32,
    source: Src,
    latency: u8,
) -> Result<(), AllocError>
    ensures { OnOk result (out.new.items ≡ out.old.items ++ said_text (OpWent number at word source latency)) }
{
    put_number(out, number)?;
    out.extend_from_slice(&word_text(at))?;
    out.extend_from_slice(&word_text(word))?;
    out.extend_from_slice(source_text(source))?;
    put_number(out, u32::from(latency))
}

/// What a line says of an access's register, and of the clock in effect.
#[derive(Clone, Copy, Debug)]
pub(crate) struct Seen {
    pub at: u32,
    pub word: u32,
    pub source: Src,
    pub latency: u8,
}

/// What is to be said of an access in this state.
pub(crate) fn seen_of(m: &Machine, op: &Op) -> Seen
    requires { IsOp op.now }
    ensures { IsSeen op.now m.now.state result }
{
    let reg = register_of(op);
    Seen {
        at: addr(reg),
        word: m.word(reg),
        source: m.source(),
        latency: m.latency(),
    }
}

/// Appends the line of an access that was done.
fn put_went_line(out: &mut Vec<u8>, number: u32, seen: Seen, fine: bool) -> Result<(), OutOfMemory>
    ensures { OnOk result (out.new.items ≡ out.old.items ++ line_text (seen_line number fine seen)) }
{
    put_went(out, number, seen.at, seen.word, seen.source, seen.latency)?;
    out.extend_from_slice(end_text(fine))?;
    Ok(())
}

/// Appends the last line of a run whose await timed out.
fn put_timeout(out: &mut Vec<u8>, name: Timeout, fine: bool) -> Result<(), OutOfMemory>
    ensures { OnOk result (out.new.items ≡ out.old.items ++ (timeout_text name ++ end_text fine)) }
{
    out.extend_from_slice(timeout_text(name))?;
    out.extend_from_slice(end_text(fine))?;
    Ok(())
}

#[tactic(auto, unfolding(crate::specs::Lines::forbidden_text))]
fn put_forbidden(out: &mut Vec<u8>, rule: Rule, fine: bool) -> Result<(), OutOfMemory>
    ensures { OnOk result (out.new.items ≡ out.old.items ++ line_text (forbidden_line rule fine)) }
{
    out.extend_from_slice(b"forbidden ")?;
    put_number(out, u32::from(rule.number()))?;
    out.extend_from_slice(end_text(fine))?;
    Ok(())
}

/// Appends the line of a step, if it has one.
pub(crate) fn put_step(
    out: &mut Vec<u8>,
    number: u32,
    seen: Seen,
    turn: Turn,
) -> Result<(), OutOfMemory>
    ensures { OnOk result (out.new.items ≡ out.old.items ++ seen_text number turn.fine seen turn.stepped) }
{
    match turn.stepped {
        Stepped::Went => put_went_line(out, number, seen, turn.fine),
        Stepped::Waiting => Ok(()),
        Stepped::TimedOut { name } => put_timeout(out, name, turn.fine),
        Stepped::Forbidden { rule } => put_forbidden(out, rule, turn.fine),
    }
}

/// Appends the last line of a run that is done.
pub(crate) fn put_done(out: &mut Vec<u8>, fine: bool) -> Result<(), OutOfMemory>
    ensures { OnOk result (out.new.items ≡ out.old.items ++ (done_text ++ end_text fine)) }
{
    out.extend_from_slice(done_text())?;
    out.extend_from_slice(end_text(fine))?;
    Ok(())
}
