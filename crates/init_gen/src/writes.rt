//! The list of accesses.
ghost use Rattle.std.specs.Prelude.{◌≡◌, ℕ, ◌+◌, ◌*◌, ◌^◌, ◌≤◌, ◌<◌, ◌++◌, List, [], Bool, IfOk};
ghost use Rattle.res_model.specs.Valid.{IsValid};
ghost use Rattle.res_model.specs.declared.table.TableParts.{TableParts};
ghost use Rattle.reg_machine.specs.Legal.{IsLegal};
ghost use Rattle.reg_machine.specs.Reset.{reset_of};
ghost use Rattle.reg_machine.specs.Run.{Sound};
ghost use Rattle.reg_machine.specs.declared.op.Op.TheVariants as op;
ghost use Rattle.init_gen.specs.declared.setting.Oscillator.TheVariants as oscillator;
ghost use Rattle.init_gen.specs.Codes.{codes_of, IsSmall};
ghost use Rattle.init_gen.specs.Good.{IsSettable, IsAllowed, IsRight};
ghost use Rattle.init_gen.specs.Writes.{pll_word, code_word, acr_word, scale_ops, vos_ops, hse_ops, pll_ops, over_ops, switch_ops, late_ops, writes_of, target_of};

use crate::codes::codes_of;
use crate::pins::with_pins;
use crate::setting::{Codes, Oscillator, Setting};
use reg_machine::{Op, Timeout};
use reg_map::Reg;
use res_base::OutOfMemory;
use std::alloc::{AllocError, Global};

/// The accesses that bring a chip from reset to a setting. Where a table allows the setting, they are sound: whatever
/// flags come, none of them is forbidden, each state on the way is legal, and the run ends, with the clocks and pins
/// of the setting or at an await that timed out.
pub fn generate(alloc: Global, s: &Setting) -> Result<Vec<Op>, OutOfMemory>
    requires { IsSettable s.now }
    ensures writes { IfOk result (λ ops. ops.items ≡ writes_of s.now) }
    ensures sound { IfOk result (λ ops. (t : TableParts) → IsValid t → IsAllowed t s.now → Sound (IsLegal t (target_of s.now)) (IsRight s.now) ops.items (reset_of t (target_of s.now))) }
{
    let codes = codes_of(s.version, &s.facts, &s.clock, s.wait);
    let none = Vec::new(alloc);
    let zero = with_vos(none, codes)?;
    let first = with_hse(zero, codes.oscillator)?;
    let running = with_pll(first, codes)?;
    let second = with_over(running, codes.over)?;
    let third = with_late(second, s.prefetch, codes)?;
    let ops = with_pins(third, &s.pins)?;
    Ok(ops)
}

fn with_vos(ops: Vec<Op>, c: Codes) -> Result<Vec<Op>, AllocError>
    ensures { IfOk result (λ r. r.items ≡ ops.items ++ vos_ops c []) }
{
    if c.step == 1 {
        return Ok(ops);
    }
    let mut all = ops;
    all.push(modify(Reg::Apb1enr, 0, 0x1000_0000))?;
    all.push(Op::Read { reg: Reg::Apb1enr })?;
    with_scale(all, c)
}

fn with_scale(ops: Vec<Op>, c: Codes) -> Result<Vec<Op>, AllocError>
    ensures { IfOk result (λ r. r.items ≡ ops.items ++ scale_ops c []) }
{
    if c.scale == 1 {
        return Ok(ops);
    }
    let mut all = ops;
    all.push(modify(Reg::PwrCr, c.vos_clear, c.vos_set))?;
    Ok(all)
}

fn with_hse(ops: Vec<Op>, o: Oscillator) -> Result<Vec<Op>, AllocError>
    ensures { IfOk result (λ r. r.items ≡ ops.items ++ hse_ops o []) }
{
    match o {
        Oscillator::Off => Ok(ops),
        Oscillator::Crystal => with_crystal(ops),
        Oscillator::Bypass => {
            let mut all = ops;
            all.push(modify(Reg::Cr, 0, 0x4_0000))?;
            with_crystal(all)
        }
    }
}

fn with_crystal(ops: Vec<Op>) -> Result<Vec<Op>, AllocError>
    ensures { IfOk result (λ r. r.items ≡ ops.items ++ hse_ops oscillator.Crystal []) }
{
    let mut all = ops;
    all.push(modify(Reg::Cr, 0, 0x1_0000))?;
    all.push(wait(Reg::Cr, 0x2_0000, 0x2_0000, 100_000, Timeout::Hse))?;
    Ok(all)
}

fn with_pll(ops: Vec<Op>, c: Codes) -> Result<Vec<Op>, AllocError>
    requires { IsSmall c }
    ensures { IfOk result (λ r. r.items ≡ ops.items ++ pll_ops c []) }
{
    if !c.pll {
        return Ok(ops);
    }
    let mut all = ops;
    all.push(write(Reg::Pllcfgr, pll_word(c)))?;
    all.push(modify(Reg::Cr, 0, 0x100_0000))?;
    all.push(wait(Reg::Cr, 0x200_0000, 0x200_0000, 10_000, Timeout::Pll))?;
    Ok(all)
}

fn with_over(ops: Vec<Op>, over: bool) -> Result<Vec<Op>, AllocError>
    ensures { IfOk result (λ r. r.items ≡ ops.items ++ over_ops over []) }
{
    if !over {
        return Ok(ops);
    }
    let mut all = ops;
    all.push(modify(Reg::PwrCr, 0, 0x1_0000))?;
    all.push(wait(Reg::PwrCsr, 0x1_0000, 0x1_0000, 10_000, Timeout::Over))?;
    all.push(modify(Reg::PwrCr, 0, 0x2_0000))?;
    all.push(wait(Reg::PwrCsr, 0x2_0000, 0x2_0000, 10_000, Timeout::OverSwitch))?;
    Ok(all)
}

fn with_late(ops: Vec<Op>, prefetch: bool, c: Codes) -> Result<Vec<Op>, AllocError>
    requires { IsSmall c }
    ensures { IfOk result (λ r. r.items ≡ ops.items ++ late_ops prefetch c []) }
{
    let mut all = ops;
    all.push(write(Reg::Acr, acr_word(prefetch, c.wait)))?;
    all.push(wait(Reg::Acr, 7, c.wait, 1000, Timeout::Latency))?;
    all.push(modify(Reg::Cfgr, 0xFCF0, code_word(c)))?;
    with_switch(all, c.src)
}

fn with_switch(ops: Vec<Op>, src: u32) -> Result<Vec<Op>, AllocError>
    requires { src < 3 }
    ensures { IfOk result (λ r. r.items ≡ ops.items ++ switch_ops src []) }
{
    if src == 0 {
        return Ok(ops);
    }
    let mut all = ops;
    all.push(modify(Reg::Cfgr, 3, src))?;
    all.push(wait(Reg::Cfgr, 12, 4 * src, 100_000, Timeout::Switch))?;
    Ok(all)
}

fn write(reg: Reg, value: u32) -> Op
    ensures { result ≡ op.Write reg value }
{
    Op::Write { reg, value }
}

fn modify(reg: Reg, clear: u32, set: u32) -> Op
    ensures { result ≡ op.Modify reg clear set }
{
    Op::Modify { reg, clear, set }
}

fn wait(reg: Reg, mask: u32, want: u32, polls: u32, name: Timeout) -> Op
    ensures { result ≡ op.Await reg mask want polls name }
{
    Op::Await {
        reg,
        mask,
        want,
        polls,
        name,
    }
}

fn pll_word(c: Codes) -> u32
    requires { IsSmall c }
    ensures { result ≡ pll_word c }
{
    0x2000_0000 + c.q * 0x100_0000 + c.psrc * 0x40_0000 + c.pcode * 0x1_0000 + c.n * 0x40 + c.m
}

fn code_word(c: Codes) -> u32
    requires { IsSmall c }
    ensures { result ≡ code_word c }
{
    c.hcode * 0x10 + c.code1 * 0x400 + c.code2 * 0x2000
}

fn acr_word(prefetch: bool, wait: u32) -> u32
    requires { wait < 8 }
    ensures { result ≡ acr_word prefetch wait }
{
    let more = if prefetch { 0x100 } else { 0 };
    0x600 + more + wait
}
