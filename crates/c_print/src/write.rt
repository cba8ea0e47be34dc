//! The C text of a list of accesses.
ghost use Rattle.std.specs.Prelude.{◌≡◌, ◌++◌, ◌<◌, ◌^◌, map, OnOk, IfOk};
ghost use Rattle.std.specs.List.{concat};
ghost use Rattle.res_base.specs.Lists.{Each};
ghost use Rattle.reg_map.specs.Registers.{IsRegister, address};
ghost use Rattle.reg_machine.specs.declared.op.Op.TheVariants as op;
ghost use Rattle.reg_machine.specs.Words.{IsOp};
ghost use Rattle.c_print.specs.Text.{part_text, digits_1, digits_2, digits_4, digits_8, digit, number_after, count, await_end, op_line, awaits_over, frame, c_text_of};

use crate::part::{Part, await_end, awaits_over, frame_part, text_of};
use reg_machine::{Op, Timeout};
use reg_map::{Reg, addr};
use res_base::{OutOfMemory, put_dec};
use std::alloc::Global;

/// The C function that makes the accesses in their order.
pub fn c_text(alloc: Global, ops: &[Op]) -> Result<Vec<u8>, OutOfMemory>
    requires { Each IsOp ops.now }
    ensures { IfOk result (λ text. text.items ≡ c_text_of ops.now) }
{
    let mut out = Vec::new(alloc);
    put_frame(&mut out, awaits_over(ops))?;
    put_ops(alloc, &mut out, ops)?;
    put_part(&mut out, Part::Return)?;
    put_part(&mut out, Part::Close)?;
    Ok(out)
}

/// The six lines before those of the accesses.
fn put_frame(out: &mut Vec<u8>, over: bool) -> Result<(), OutOfMemory>
    ensures { OnOk result (out.new.items ≡ out.old.items ++ concat (frame over)) }
{
    for place in 0..6 {
        put_part(out, frame_part(over, place))?;
    }
    Ok(())
}

/// A line for each access.
fn put_ops(alloc: Global, out: &mut Vec<u8>, ops: &[Op]) -> Result<(), OutOfMemory>
    requires { Each IsOp ops.now }
    ensures { OnOk result (out.new.items ≡ out.old.items ++ concat (map op_line ops.now)) }
{
    for op in ops {
        put_op(alloc, out, *op)?;
    }
    Ok(())
}

/// The line of an access.
fn put_op(alloc: Global, out: &mut Vec<u8>, op: Op) -> Result<(), OutOfMemory>
    requires { IsOp op }
    ensures { OnOk result (out.new.items ≡ out.old.items ++ op_line op) }
{
    match op {
        Op::Write { reg, value } => put_write(out, reg, value),
        Op::Modify { reg, clear, set } => put_modify(out, reg, clear, set),
        Op::Read { reg } => put_read(out, reg),
        Op::Await {
            reg,
            mask,
            want,
            polls,
            name,
        } => {
            put_test(out, reg, mask, want)?;
            put_limit(alloc, out, polls, name)
        }
    }
}

fn put_write(out: &mut Vec<u8>, reg: Reg, value: u32) -> Result<(), OutOfMemory>
    requires { IsRegister reg }
    ensures { OnOk result (out.new.items ≡ out.old.items ++ op_line (op.Write reg value)) }
{
    put_number(out, Part::Store, addr(reg))?;
    put_number(out, Part::Gets, value)?;
    put_part(out, Part::End)
}

fn put_modify(out: &mut Vec<u8>, reg: Reg, clear: u32, set: u32) -> Result<(), OutOfMemory>
    requires { IsRegister reg }
    ensures { OnOk result (out.new.items ≡ out.old.items ++ op_line (op.Modify reg clear set)) }
{
    let at = addr(reg);
    put_number(out, Part::Store, at)?;
    put_number(out, Part::GetsOld, at)?;
    put_number(out, Part::ButNot, clear)?;
    put_number(out, Part::Or, set)?;
    put_part(out, Part::End)
}

fn put_read(out: &mut Vec<u8>, reg: Reg) -> Result<(), OutOfMemory>
    requires { IsRegister reg }
    ensures { OnOk result (out.new.items ≡ out.old.items ++ op_line (op.Read reg)) }
{
    put_number(out, Part::Load, addr(reg))?;
    put_part(out, Part::LoadEnd)
}

/// The test of an await.
fn put_test(out: &mut Vec<u8>, reg: Reg, mask: u32, want: u32) -> Result<(), OutOfMemory>
    requires { IsRegister reg }
    ensures { OnOk result (out.new.items ≡ out.old.items ++ (number_after Part.Poll (address reg) ++ (number_after Part.Under mask ++ number_after Part.IsNot want))) }
{
    put_number(out, Part::Poll, addr(reg))?;
    put_number(out, Part::Under, mask)?;
    put_number(out, Part::IsNot, want)
}

/// The limit of an await's polls, and what it returns there.
fn put_limit(alloc: Global, out: &mut Vec<u8>, polls: u32, name: Timeout) -> Result<(), OutOfMemory>
    ensures { OnOk result (out.new.items ≡ out.old.items ++ (part_text Part.AtMost ++ (count polls ++ await_end name))) }
{
    put_part(out, Part::AtMost)?;
    put_dec(alloc, out, u64::from(polls))?;
    put_part(out, Part::Unsigned)?;
    out.extend_from_slice(await_end(name))?;
    Ok(())
}

/// A word after a text.
#[tactic(auto, unfolding(crate::specs::Text::hex))]
fn put_number(out: &mut Vec<u8>, before: Part, n: u32) -> Result<(), OutOfMemory>
    ensures { OnOk result (out.new.items ≡ out.old.items ++ number_after before n) }
{
    put_part(out, before)?;
    put_part(out, Part::Hex)?;
    put_digits_8(out, n)?;
    put_part(out, Part::Unsigned)
}

fn put_part(out: &mut Vec<u8>, part: Part) -> Result<(), OutOfMemory>
    ensures { OnOk result (out.new.items ≡ out.old.items ++ part_text part) }
{
    out.extend_from_slice(text_of(part))?;
    Ok(())
}

#[tactic(auto, unfolding(crate::specs::Text::digits_8))]
fn put_digits_8(out: &mut Vec<u8>, n: u32) -> Result<(), OutOfMemory>
    ensures { OnOk result (out.new.items ≡ out.old.items ++ digits_8 n) }
{
    put_digits_4(out, n / 0x1_0000)?;
    put_digits_4(out, n % 0x1_0000)
}

#[tactic(auto, unfolding(crate::specs::Text::digits_4))]
fn put_digits_4(out: &mut Vec<u8>, n: u32) -> Result<(), OutOfMemory>
    requires { n < 65536 }
    ensures { OnOk result (out.new.items ≡ out.old.items ++ digits_4 n) }
{
    put_digits_2(out, n / 0x100)?;
    put_digits_2(out, n % 0x100)
}

#[tactic(auto, unfolding(crate::specs::Text::digits_2))]
fn put_digits_2(out: &mut Vec<u8>, n: u32) -> Result<(), OutOfMemory>
    requires { n < 256 }
    ensures { OnOk result (out.new.items ≡ out.old.items ++ digits_2 n) }
{
    put_digit(out, n / 0x10)?;
    put_digit(out, n % 0x10)
}

fn put_digit(out: &mut Vec<u8>, n: u32) -> Result<(), OutOfMemory>
    requires { n < 16 }
    ensures { OnOk result (out.new.items ≡ out.old.items ++ digits_1 n) }
{
    out.push(digit(n))?;
    Ok(())
}

/// The upper-case hexadecimal digit of a number.
#[tactic(auto, unfolding(crate::specs::Text::digit))]
fn digit(n: u32) -> u8
    requires { n < 16 }
    ensures { result ≡ digit n }
{
    if n < 10 {
        b'0' + n as u8
    } else {
        b'A' - 10 + n as u8
    }
}
