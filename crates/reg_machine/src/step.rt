//! What an op does to the state.
ghost use Rattle.std.specs.Prelude.{◌≡◌, ℕ, ◌+◌, ◌*◌, ◌^◌, ◌<◌, Some, None};
ghost use Rattle.reg_map.specs.Registers.{IsRegister};
ghost use Rattle.reg_machine.specs.Words.{word_of, number, slot, IsStored, IsOp};
ghost use Rattle.reg_machine.specs.Rules.{bars};
ghost use Rattle.reg_machine.specs.Awaits.{awaits_ready, awaits_switch, awaits_latency, awaits_over, is_lawful};
ghost use Rattle.reg_machine.specs.Step.{over_after, switched_after, flags, stored, noted, went, store, poll, is_acr, act, step_of};

use crate::op::{Answer, Op, Rule, Stepped, Timeout};
use crate::rules::{HSEON, ODEN, ODSWEN, PLLON, barred, bit};
use crate::state::State;
use reg_map::{GpioReg, Reg};

/// One step: the flags that the answer names come, and then the op.
pub fn step(s: &mut State, op: &Op, a: Answer) -> Stepped
    requires stored { IsStored s.old }
    requires port { IsOp op.now }
    ensures step { (result, s.new) ≡ step_of s.old op.now a }
    ensures kept { IsStored s.new }
{
    *s = with_flags(s, a);
    match *op {
        Op::Write { reg, value } => store_word(s, reg, value),
        Op::Modify { reg, clear, set } => {
            if is_acr(reg) {
                Stepped::Forbidden {
                    rule: Rule::AcrModifiedOrOtherBit,
                }
            } else {
                let value = (word(s, reg) & !clear) | set;
                store_word(s, reg, value)
            }
        }
        Op::Read { reg } => read_word(s, reg),
        Op::Await {
            reg,
            mask,
            want,
            polls,
            name,
        } => {
            if 0 < polls && lawful(s, reg, mask, want, name) {
                poll(s, reg, mask, want, polls, name)
            } else {
                Stepped::Forbidden {
                    rule: Rule::AwaitUnlawful,
                }
            }
        }
    }
}

fn over_ready(s: &State, a: Answer) -> bool
    ensures { result ≡ over_after a s.now }
{
    s.over_ready || (a.over && bit(ODEN, s.pwr_cr) && bit(PLLON, s.cr))
}

fn over_switched(s: &State, a: Answer) -> bool
    ensures { result ≡ switched_after a s.now }
{
    s.over_switched || (a.over_switch && bit(ODSWEN, s.pwr_cr) && over_ready(s, a))
}

pub fn with_flags(s: &State, a: Answer) -> State
    requires { IsStored s.now }
    ensures new { result ≡ flags a s.now }
    ensures kept { IsStored result }
{
    let hse_ready = s.hse_ready || (a.hse && bit(HSEON, s.cr));
    let source_ready = if (s.pllcfgr >> 22) % 2 == 1 {
        hse_ready
    } else {
        true
    };
    State {
        hse_ready,
        pll_ready: s.pll_ready || (a.pll && bit(PLLON, s.cr) && source_ready),
        latency: if a.latency { s.acr % 8 } else { s.latency },
        source: if a.switch { s.cfgr % 4 } else { s.source },
        over_ready: over_ready(s, a),
        over_switched: over_switched(s, a),
        ..*s
    }
}

/// The op is done, and the next await begins at no polls.
fn went(s: &mut State) -> Stepped
    requires { IsStored s.old }
    ensures step { (result, s.new) ≡ went s.old }
    ensures kept { IsStored s.new }
{
    s.polls = 0;
    Stepped::Went
}

/// An await reads once.
fn poll(s: &mut State, r: Reg, mask: u32, want: u32, polls: u32, name: Timeout) -> Stepped
    requires stored { IsStored s.old }
    requires port { IsRegister r }
    ensures step { (result, s.new) ≡ poll s.old r mask want polls name }
    ensures kept { IsStored s.new }
{
    if word(s, r) & mask == want {
        went(s)
    } else if s.polls + 1 < polls {
        s.polls += 1;
        Stepped::Waiting
    } else {
        s.polls = 0;
        Stepped::TimedOut { name }
    }
}

fn store_word(s: &mut State, r: Reg, value: u32) -> Stepped
    requires stored { IsStored s.old }
    requires port { IsRegister r }
    ensures step { (result, s.new) ≡ store s.old r value }
    ensures kept { IsStored s.new }
{
    match barred(s, r, value) {
        Some(rule) => Stepped::Forbidden { rule },
        None => {
            put(s, r, value);
            went(s)
        }
    }
}

fn put(s: &mut State, r: Reg, value: u32)
    requires stored { IsStored s.old }
    requires port { IsRegister r }
    requires allowed { bars s.old r value ≡ None }
    ensures new { s.new ≡ stored r value s.old }
    ensures kept { IsStored s.new }
{
    match r {
        Reg::Cr => {
            let hse = bit(HSEON, value);
            let pll = bit(PLLON, value);
            s.cr = value & 0xFDFDFFFD;
            s.hse_ready = s.hse_ready && hse;
            s.pll_ready = s.pll_ready && pll;
        }
        Reg::Pllcfgr => s.pllcfgr = value,
        Reg::Cfgr => s.cfgr = value % 4 + 16 * (value / 16),
        Reg::Acr => {
            s.acr = value;
            s.acr_written = true;
        }
        Reg::Ahb1enr => {
            s.ahb_read = s.ahb_read & s.ahb1enr;
            s.ahb1enr = value;
        }
        Reg::Apb1enr => {
            s.apb_read = s.apb_read & s.apb1enr;
            s.apb1enr = value;
        }
        Reg::PwrCr => s.pwr_cr = value,
        Reg::PwrCsr => {}
        Reg::Gpio { port, kind } => {
            let i = slot(port, kind);
            s.gpio[i] = value;
        }
    }
}

fn read_word(s: &mut State, r: Reg) -> Stepped
    requires { IsStored s.old }
    ensures step { (result, s.new) ≡ went (noted r s.old) }
    ensures kept { IsStored s.new }
{
    note_read(s, r);
    went(s)
}

fn note_read(s: &mut State, r: Reg)
    requires { IsStored s.old }
    ensures new { s.new ≡ noted r s.old }
    ensures kept { IsStored s.new }
{
    match r {
        Reg::Ahb1enr => s.ahb_read = s.ahb1enr,
        Reg::Apb1enr => s.apb_read = s.apb1enr,
        _ => {}
    }
}

fn is_acr(r: Reg) -> bool
    ensures { result ≡ is_acr r }
{
    match r {
        Reg::Acr => true,
        _ => false,
    }
}

fn lawful(s: &State, r: Reg, mask: u32, want: u32, name: Timeout) -> bool
    ensures { result ≡ is_lawful s.now r mask want name }
{
    match r {
        Reg::Cr => awaits_ready(s, name, mask, want),
        Reg::Cfgr => awaits_switch(s, name, mask, want),
        Reg::Acr => awaits_latency(s, name, mask, want),
        Reg::PwrCsr => awaits_over(s, name, mask, want),
        _ => false,
    }
}

fn awaits_ready(s: &State, name: Timeout, mask: u32, want: u32) -> bool
    ensures { result ≡ awaits_ready s.now name mask want }
{
    match name {
        Timeout::Hse => mask == 0x0002_0000 && want == 0x0002_0000 && bit(HSEON, s.cr),
        Timeout::Pll => mask == 0x0200_0000 && want == 0x0200_0000 && bit(PLLON, s.cr),
        _ => false,
    }
}

fn awaits_switch(s: &State, name: Timeout, mask: u32, want: u32) -> bool
    ensures { result ≡ awaits_switch s.now name mask want }
{
    match name {
        Timeout::Switch => mask == 12 && want == 4 * (s.cfgr % 4),
        _ => false,
    }
}

fn awaits_latency(s: &State, name: Timeout, mask: u32, want: u32) -> bool
    ensures { result ≡ awaits_latency s.now name mask want }
{
    match name {
        Timeout::Latency => s.acr_written && mask == 7 && want == s.acr % 8,
        _ => false,
    }
}

fn awaits_over(s: &State, name: Timeout, mask: u32, want: u32) -> bool
    ensures { result ≡ awaits_over s.now name mask want }
{
    match name {
        Timeout::Over => mask == 0x0001_0000 && want == 0x0001_0000 && bit(ODEN, s.pwr_cr),
        Timeout::OverSwitch => {
            mask == 0x0002_0000 && want == 0x0002_0000 && bit(ODSWEN, s.pwr_cr)
        }
        _ => false,
    }
}

pub fn word(s: &State, r: Reg) -> u32
    requires stored { IsStored s.now }
    requires port { IsRegister r }
    ensures { result ≡ word_of s.now r }
{
    match r {
        Reg::Cr => {
            let hse = if s.hse_ready { 1 << 17 } else { 0 };
            let pll = if s.pll_ready { 1 << 25 } else { 0 };
            s.cr | 2 | hse | pll
        }
        Reg::Pllcfgr => s.pllcfgr,
        Reg::Cfgr => s.cfgr + 4 * s.source,
        Reg::Acr => s.acr - s.acr % 8 + s.latency,
        Reg::Ahb1enr => s.ahb1enr,
        Reg::Apb1enr => s.apb1enr,
        Reg::PwrCr => s.pwr_cr,
        Reg::PwrCsr => {
            let ready = if s.over_ready { 1 << 16 } else { 0 };
            let switched = if s.over_switched { 1 << 17 } else { 0 };
            ready + switched
        }
        Reg::Gpio { port, kind } => s.gpio[slot(port, kind)],
    }
}

pub fn slot(port: u8, k: GpioReg) -> usize
    requires { port < 9 }
    ensures is { result ≡ slot port k }
    ensures small { result < 54 }
{
    port as usize * 6 + number(k)
}

fn number(k: GpioReg) -> usize
    ensures is { result ≡ number k }
    ensures small { result < 6 }
{
    match k {
        GpioReg::Moder => 0,
        GpioReg::Otyper => 1,
        GpioReg::Ospeedr => 2,
        GpioReg::Pupdr => 3,
        GpioReg::Afrl => 4,
        GpioReg::Afrh => 5,
    }
}
