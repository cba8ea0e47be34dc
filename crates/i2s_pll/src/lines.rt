//! The lines of a choice.
ghost use Rattle.std.specs.Prelude.{◌≡◌, ◌++◌, ◌≤◌, ◌<◌, ◌^◌, IfOk, OnOk, map, string_bytes};
ghost use Rattle.std.specs.List.{concat};
ghost use Rattle.res_base.specs.Fraction.{over, whole};
ghost use Rattle.i2s_pll.specs.Choices.{HasDividers};
ghost use Rattle.i2s_pll.specs.declared.op.I2sOp.TheVariants as op;
ghost use Rattle.i2s_pll.specs.Texts.{await_end, await_start, config_end, config_start, divider_words, error_line, i2sclk_line, on_text, op_line, pll_words, prescaler_line, rate_line};

use crate::choice::I2s;
use crate::clocks::{error, i2sclk, sample_rate};
use crate::hex::put_digits_8;
use crate::input::Input;
use crate::op::I2sOp;
use res_base::{OutOfMemory, put_dec};
use std::alloc::{AllocError, Global};

#[tactic(auto, unfolding(crate::specs::Texts::pll_words))]
pub(crate) fn pll_words(alloc: Global, x: I2s) -> Result<String, AllocError>
    ensures { IfOk result (λ s. string_bytes s ≡ pll_words x) }
{
    let n = x.n;
    let r = x.r;
    let words = format!(in alloc; "i2s n {n} r {r}")?;
    Ok(words)
}

#[tactic(auto, unfolding(crate::specs::Texts::divider_words))]
pub(crate) fn divider_words(alloc: Global, x: I2s) -> Result<String, AllocError>
    ensures { IfOk result (λ s. string_bytes s ≡ divider_words x) }
{
    let div = x.div;
    let odd = x.odd;
    let words = format!(in alloc; " div {div} odd {odd}\n")?;
    Ok(words)
}

/// I2SCLK in whole hertz.
#[tactic(auto, unfolding(crate::specs::Texts::i2sclk_line))]
pub(crate) fn i2sclk_line(alloc: Global, i: Input, x: I2s) -> Result<String, AllocError>
    requires { HasDividers x }
    ensures { IfOk result (λ s. string_bytes s ≡ i2sclk_line (over (whole i.hertz) i.m) x) }
{
    let hertz = i2sclk(i, x.n, x.r).floor();
    let line = format!(in alloc; "I2SCLK {hertz}\n")?;
    Ok(line)
}

/// The sample rate in whole hertz.
#[tactic(auto, unfolding(crate::specs::Texts::rate_line))]
pub(crate) fn rate_line(alloc: Global, i: Input, x: I2s) -> Result<String, AllocError>
    requires { HasDividers x }
    ensures { IfOk result (λ s. string_bytes s ≡ rate_line (over (whole i.hertz) i.m) x) }
{
    let hertz = sample_rate(i, x).floor();
    let line = format!(in alloc; "rate {hertz}\n")?;
    Ok(line)
}

/// The error in whole thousandths of a hertz.
#[tactic(auto, unfolding(crate::specs::Texts::error_line))]
pub(crate) fn error_line(alloc: Global, i: Input, rate: u32, x: I2s) -> Result<String, AllocError>
    requires rate { rate ≤ 192000 }
    requires dividers { HasDividers x }
    ensures { IfOk result (λ s. string_bytes s ≡ error_line (over (whole i.hertz) i.m) rate x) }
{
    let thousandths = error(i, rate, x).times(1000).floor();
    let line = format!(in alloc; "error {thousandths}\n")?;
    Ok(line)
}

/// Appends the line of the register SPI_I2SPR.
#[tactic(auto, unfolding(crate::specs::Texts::prescaler_line))]
pub(crate) fn put_prescaler_line(out: &mut Vec<u8>, x: I2s) -> Result<(), AllocError>
    ensures { OnOk result (out.new.items ≡ out.old.items ++ prescaler_line x) }
{
    out.extend_from_slice(b"I2SPR 0x")?;
    put_digits_8(out, 0x200 + x.odd as u32 * 0x100 + x.div as u32)?;
    out.extend_from_slice(b"\n")
}

/// Appends the C lines of ops.
pub(crate) fn put_ops(alloc: Global, out: &mut Vec<u8>, ops: &[I2sOp]) -> Result<(), OutOfMemory>
    ensures { OnOk result (out.new.items ≡ out.old.items ++ concat (map op_line ops.now)) }
{
    for op in ops {
        put_op(alloc, out, *op)?;
    }
    Ok(())
}

/// Appends the C line of an op.
fn put_op(alloc: Global, out: &mut Vec<u8>, op: I2sOp) -> Result<(), OutOfMemory>
    ensures { OnOk result (out.new.items ≡ out.old.items ++ op_line op) }
{
    match op {
        I2sOp::Config(word) => put_config(out, word),
        I2sOp::On => put_on(out),
        I2sOp::Await { polls } => put_await(alloc, out, polls),
    }
}

fn put_config(out: &mut Vec<u8>, word: u32) -> Result<(), OutOfMemory>
    ensures { OnOk result (out.new.items ≡ out.old.items ++ op_line (op.Config word)) }
{
    out.extend_from_slice(config_start())?;
    put_digits_8(out, word)?;
    out.extend_from_slice(config_end())?;
    Ok(())
}

fn put_on(out: &mut Vec<u8>) -> Result<(), OutOfMemory>
    ensures { OnOk result (out.new.items ≡ out.old.items ++ op_line op.On) }
{
    out.extend_from_slice(on_text())?;
    Ok(())
}

fn put_await(alloc: Global, out: &mut Vec<u8>, polls: u32) -> Result<(), OutOfMemory>
    ensures { OnOk result (out.new.items ≡ out.old.items ++ op_line (op.Await polls)) }
{
    out.extend_from_slice(await_start())?;
    put_dec(alloc, out, u64::from(polls))?;
    out.extend_from_slice(await_end())?;
    Ok(())
}

/// What stands before the word of RCC_PLLI2SCFGR.
#[tactic(auto, unfolding(crate::specs::Texts::config_start))]
fn config_start() -> &'static [u8]
    ensures { result.now ≡ config_start }
{
    b"    REG(0x40023884u) = 0x"
}

/// What stands behind it.
#[tactic(auto, unfolding(crate::specs::Texts::config_end))]
fn config_end() -> &'static [u8]
    ensures { result.now ≡ config_end }
{
    b"u;\n"
}

/// The line that sets PLLI2SON in RCC_CR.
#[tactic(auto, unfolding(crate::specs::Texts::on_text))]
fn on_text() -> &'static [u8]
    ensures { result.now ≡ on_text }
{
    b"    REG(0x40023800u) = (REG(0x40023800u) & ~0x00000000u) | 0x04000000u;\n"
}

/// What stands before the polls of the await of PLLI2SRDY.
#[tactic(auto, unfolding(crate::specs::Texts::await_start))]
fn await_start() -> &'static [u8]
    ensures { result.now ≡ await_start }
{
    b"    for (polls = 0u; (REG(0x40023800u) & 0x08000000u) != 0x08000000u; ) { if (++polls == "
}

/// What stands behind them.
#[tactic(auto, unfolding(crate::specs::Texts::await_end))]
fn await_end() -> &'static [u8]
    ensures { result.now ≡ await_end }
{
    b"u) return PLLI2S_TIMEOUT; }\n"
}
