//! The lines of a text, each as a plan leaves it.
ghost use Rattle.std.specs.Prelude.{◌≡◌, ◌<◌, ◌+◌, ◌++◌, ◌^◌, length, take, Ok, OnOk};
ghost use Rattle.res_model.specs.Steps.{with_prefix};
ghost use Rattle.refusal.specs.Refusals.{Gives};
ghost use Rattle.ioc_lines.specs.Lines.{escaped, last_dot, rest_from, text_line, text_lines, with_pin, with_value};
ghost use Rattle.ioc_write.specs.Plans.{IsPlan};
ghost use Rattle.ioc_write.specs.WriteBack.{limited, line_written, lines_written, said, written};

use crate::change::{Change, change_by};
use crate::escapes::put_escaped;
use crate::fault::BackFault;
use crate::keys::{key_into, last_dot};
use crate::lines::first_line;
use crate::plan::Plan;
use crate::variable::put_value;
use refusal::Refusal;
use res_base::{OutOfMemory, put_dec};
use std::alloc::{AllocError, Global};

/// The most bytes that a line may have, its end not counted.
const MOST: usize = 65535;

/// What stands up to the `=` of a line, and the `=`.
fn prefix_of(says: &[u8], equals: usize) -> &[u8]
    requires { equals < length says.now }
    ensures { result.now ≡ take (equals + 1) says.now }
{
    &says[..equals + 1]
}

/// What stands from the last dot of a line's key on.
fn rest_of(says: &[u8], equals: usize) -> &[u8]
    requires { equals < length says.now }
    ensures { result.now ≡ rest_from says.now (last_dot (take equals says.now)) }
{
    match last_dot(&says[..equals]) {
        Some(at) => &says[at..],
        None => says,
    }
}

/// A line with another pin in its key.
#[tactic(auto, unfolding(ioc_lines::specs::Lines::with_pin))]
fn put_with_pin(
    out: &mut Vec<u8>,
    says: &[u8],
    equals: usize,
    name: &[u8],
) -> Result<(), AllocError>
    requires { equals < length says.now }
    ensures { OnOk result (out.new.items ≡ out.old.items ++ with_pin says.now equals (escaped name.now)) }
{
    put_escaped(out, name)?;
    out.extend_from_slice(rest_of(says, equals))
}

/// What a line says once it is changed.
fn put_said(
    alloc: Global,
    out: &mut Vec<u8>,
    plan: &Plan<'_>,
    says: &[u8],
    equals: usize,
    change: Change,
) -> Result<(), OutOfMemory>
    requires plan { IsPlan plan.now }
    requires equals { equals < length says.now }
    ensures { OnOk result (out.new.items ≡ out.old.items ++ said plan.now.problem.now plan.now.at.now plan.now.pins says.now equals change) }
{
    match change {
        Change::Kept => Ok(out.extend_from_slice(says)?),
        Change::Dropped => Ok(()),
        Change::Named(pin) => {
            out.extend_from_slice(prefix_of(says, equals))?;
            Ok(put_escaped(out, plan.pin_name(pin))?)
        }
        Change::Renamed(pin) => Ok(put_with_pin(out, says, equals, plan.pin_name(pin))?),
        Change::Set(v) => {
            out.extend_from_slice(prefix_of(says, equals))?;
            put_value(alloc, out, &plan.clocks(), v)
        }
        Change::Counted => {
            out.extend_from_slice(prefix_of(says, equals))?;
            put_dec(alloc, out, plan.pins)
        }
    }
}

/// A line that stays.
fn put_kept(out: &mut Vec<u8>, says: &[u8], end: &[u8]) -> Result<(), Refusal<BackFault>>
    ensures { Gives (λ _. out.new.items) result (with_prefix out.old.items (Ok (says.now ++ end.now))) }
{
    out.extend_from_slice(says)?;
    out.extend_from_slice(end)?;
    Ok(())
}

/// A line that was changed.
fn put_limited(
    out: &mut Vec<u8>,
    number: u32,
    says: &[u8],
    end: &[u8],
) -> Result<(), Refusal<BackFault>>
    ensures { Gives (λ _. out.new.items) result (with_prefix out.old.items (limited number says.now end.now)) }
{
    if says.len() > MOST {
        return Err(Refusal::Fault(BackFault::LongLine { line: number }));
    }
    put_kept(out, says, end)
}

/// A line, by what becomes of it.
fn put_written(
    out: &mut Vec<u8>,
    number: u32,
    change: Change,
    said: &[u8],
    says: &[u8],
    end: &[u8],
) -> Result<(), Refusal<BackFault>>
    ensures { Gives (λ _. out.new.items) result (with_prefix out.old.items (written number (text_line says.now end.now) change said.now)) }
{
    match change {
        Change::Kept => put_kept(out, says, end),
        Change::Dropped => Ok(()),
        Change::Named(_) | Change::Renamed(_) | Change::Set(_) | Change::Counted => {
            put_limited(out, number, said, end)
        }
    }
}

/// The line of this number. `scratch` is used up.
#[tactic(auto, unfolding(crate::specs::WriteBack::line_written))]
fn put_line(
    alloc: Global,
    out: &mut Vec<u8>,
    scratch: &mut Vec<u8>,
    plan: &Plan<'_>,
    number: u32,
    says: &[u8],
    end: &[u8],
) -> Result<(), Refusal<BackFault>>
    requires { IsPlan plan.now }
    ensures { Gives (λ _. out.new.items) result (with_prefix out.old.items (line_written plan.now.problem.now plan.now.at.now plan.now.pins number (text_line says.now end.now))) }
{
    let Some(equals) = key_into(scratch, says)? else {
        return put_kept(out, says, end);
    };
    let change = change_by(plan, scratch, &says[equals + 1..])?;
    scratch.clear();
    put_said(alloc, scratch, plan, says, equals, change)?;
    put_written(out, number, change, scratch.as_slice(), says, end)
}

/// Appends the lines of a text, each as the plan leaves it.
pub(crate) fn put_lines(
    alloc: Global,
    out: &mut Vec<u8>,
    plan: &Plan<'_>,
    text: &[u8],
) -> Result<(), Refusal<BackFault>>
    requires plan { IsPlan plan.now }
    requires few { length text.now < 2 ^ 32 }
    ensures { Gives (λ _. out.new.items) result (with_prefix out.old.items (lines_written plan.now.problem.now plan.now.at.now plan.now.pins 1 (text_lines text.now))) }
{
    let mut scratch = Vec::new(alloc);
    let mut rest = text;
    let mut number = 0u32;
    'write: while !rest.is_empty() {
        let (says, end, others) = first_line(rest);
        rest = others;
        number += 1;
        put_line(alloc, out, &mut scratch, plan, number, says, end)?;
    }
    Ok(())
}
