//! The pins.
ghost use Rattle.std.specs.Prelude.{◌≡◌, ℕ, ◌+◌, ◌*◌, ◌/◌, ◌%◌, ◌≤◌, ◌<◌, ◌++◌, List, [], ◌∷◌, Option, Some, None, IfOk, length, get_or, drop};
ghost use Rattle.reg_machine.specs.Pins.{is_debug, af_kind};
ghost use Rattle.init_gen.specs.PinWrites.{mode_wanted, wanted, is_left, pull_code, speed_code, field_op, pull_op, speed_op, type_op, af_op, mode_op, ops_in, part_of, port_and, ports, gpio_ops, gpio_section, IsNarrow, IsGiven, AreWhole};

use crate::setting::Setup;
use reg_machine::{Op, af_kind, is_debug};
use reg_map::{GpioReg, Reg};
use res_model::{Mode, Pull, Speed};
use std::alloc::AllocError;

/// Puts the accesses for the pins behind the others.
pub fn with_pins(ops: Vec<Op>, pins: &[Option<Setup>]) -> Result<Vec<Op>, AllocError>
    requires { AreWhole pins.now }
    ensures { IfOk result (λ r. r.items ≡ ops.items ++ gpio_section pins.now) }
{
    let mask = ports_in(pins);
    if mask == 0 {
        return Ok(ops);
    }
    let mut all = ops;
    all.push(Op::Modify {
        reg: Reg::Ahb1enr,
        clear: 0,
        set: mask,
    })?;
    all.push(Op::Read { reg: Reg::Ahb1enr })?;
    push_pins(all, pins)
}

fn push_pins(ops: Vec<Op>, pins: &[Option<Setup>]) -> Result<Vec<Op>, AllocError>
    requires { AreWhole pins.now }
    ensures { IfOk result (λ r. r.items ≡ ops.items ++ gpio_ops 0 pins.now) }
{
    let mut all = ops;
    let mut p = 0;
    while p < pins.len() {
        all = push_place(all, p as u8, pins[p])?;
        p += 1;
    }
    Ok(all)
}

fn ports_in(pins: &[Option<Setup>]) -> u32
    requires { length pins.now ≤ 144 }
    ensures { result ≡ ports 0 pins.now }
{
    let mut p = pins.len();
    let mut mask = 0;
    while p > 0 {
        p -= 1;
        mask = with_port(p as u8, pins[p], mask);
    }
    mask
}

fn push_place(ops: Vec<Op>, p: u8, o: Option<Setup>) -> Result<Vec<Op>, AllocError>
    requires { IsGiven o }
    ensures { IfOk result (λ r. r.items ≡ ops.items ++ part_of p o) }
{
    match o {
        None => Ok(ops),
        Some(u) => {
            if is_left(p, u.mode) {
                Ok(ops)
            } else {
                push_pin(ops, p, u)
            }
        }
    }
}

fn push_pin(ops: Vec<Op>, p: u8, u: Setup) -> Result<Vec<Op>, AllocError>
    requires { IsNarrow u.mode }
    ensures { IfOk result (λ r. r.items ≡ ops.items ++ ops_in u.mode p u []) }
{
    let mut ops = ops;
    match u.mode {
        Mode::Alt(function) => {
            let mut ops = push_output(ops, p, u)?;
            ops.push(af_op(p, function))?;
            ops.push(two_op(p, GpioReg::Moder, 2))?;
            return Ok(ops);
        }
        Mode::Output => {
            let mut ops = push_output(ops, p, u)?;
            ops.push(two_op(p, GpioReg::Moder, 1))?;
            return Ok(ops);
        }
        Mode::Input | Mode::Exti => {
            ops.push(pull_op(p, u))?;
            ops.push(two_op(p, GpioReg::Moder, 0))?;
        }
        Mode::Analog => {
            ops.push(pull_op(p, u))?;
            ops.push(two_op(p, GpioReg::Moder, 3))?;
        }
        Mode::Osc | Mode::Held => {}
    }
    Ok(ops)
}

fn push_output(ops: Vec<Op>, p: u8, u: Setup) -> Result<Vec<Op>, AllocError>
    ensures { IfOk result (λ r. r.items ≡ ops.items ++ (pull_op p u ∷ speed_op p u ∷ type_op p u ∷ [])) }
{
    let mut ops = ops;
    ops.push(pull_op(p, u))?;
    ops.push(speed_op(p, u))?;
    ops.push(type_op(p, u))?;
    Ok(ops)
}

fn pull_op(p: u8, u: Setup) -> Op
    ensures { result ≡ pull_op p u }
{
    two_op(p, GpioReg::Pupdr, pull_code(u.pull))
}

fn speed_op(p: u8, u: Setup) -> Op
    ensures { result ≡ speed_op p u }
{
    two_op(p, GpioReg::Ospeedr, speed_code(u.speed))
}

fn pull_code(pull: Pull) -> u8
    ensures is { result ≡ pull_code pull }
    ensures small { result < 4 }
{
    match pull {
        Pull::None => 0,
        Pull::Up => 1,
        Pull::Down => 2,
    }
}

fn speed_code(speed: Speed) -> u8
    ensures is { result ≡ speed_code speed }
    ensures small { result < 4 }
{
    match speed {
        Speed::Low => 0,
        Speed::Medium => 1,
        Speed::High => 2,
        Speed::VeryHigh => 3,
    }
}

#[tactic(auto, using(reg_map::proofs::ShiftLemmas::shift_two, reg_map::proofs::ShiftLemmas::ones_two))]
fn two_op(p: u8, kind: GpioReg, value: u8) -> Op
    requires { value < 4 }
    ensures { result ≡ field_op (p / 16) kind (2 * (p % 16)) 2 value }
{
    let low = 2 * (p as u32 % 16);
    Op::Modify {
        reg: Reg::Gpio { port: p / 16, kind },
        clear: 3 << low,
        set: (value as u32) << low,
    }
}

#[tactic(auto, using(reg_map::proofs::ShiftLemmas::shift_one, reg_map::proofs::ShiftLemmas::ones_one))]
fn type_op(p: u8, u: Setup) -> Op
    ensures { result ≡ type_op p u }
{
    let low = p as u32 % 16;
    let value: u32 = if u.drain { 1 } else { 0 };
    Op::Modify {
        reg: Reg::Gpio {
            port: p / 16,
            kind: GpioReg::Otyper,
        },
        clear: 1 << low,
        set: value << low,
    }
}

#[tactic(auto, using(reg_map::proofs::ShiftLemmas::shift_four, reg_map::proofs::ShiftLemmas::ones_four))]
fn af_op(p: u8, f: u8) -> Op
    requires { f < 16 }
    ensures { result ≡ af_op p f }
{
    let low = 4 * (p as u32 % 8);
    Op::Modify {
        reg: Reg::Gpio {
            port: p / 16,
            kind: af_kind(p),
        },
        clear: 15 << low,
        set: (f as u32) << low,
    }
}

fn with_port(p: u8, o: Option<Setup>, mask: u32) -> u32
    requires { p < 144 }
    ensures { result ≡ port_and p o mask }
{
    match o {
        None => mask,
        Some(u) => {
            if is_left(p, u.mode) {
                mask
            } else {
                (1 << (p / 16)) | mask
            }
        }
    }
}

fn is_left(p: u8, m: Mode) -> bool
    ensures { result ≡ is_left p m }
{
    match m {
        Mode::Alt(function) => is_debug(p) && function == 0,
        Mode::Osc | Mode::Held => true,
        _ => false,
    }
}

/// What the target wants of a pin.
pub fn wanted(o: Option<Setup>) -> Option<Mode>
    ensures { result ≡ wanted o }
{
    match o {
        None => None,
        Some(u) => match u.mode {
            Mode::Exti => Some(Mode::Input),
            Mode::Osc | Mode::Held => None,
            m => Some(m),
        },
    }
}
