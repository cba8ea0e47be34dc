//! What stands behind the lines of the text.
ghost use Rattle.std.specs.Prelude.{◌≡◌, ◌≤◌, ◌<◌, ◌+◌, ◌^◌, ◌==◌, ◌++◌, length, filter, OnOk};
ghost use Rattle.std.specs.List.{list_any};
ghost use Rattle.ioc_write.specs.Plans.{IsPlan};
ghost use Rattle.ioc_write.specs.Survey.{above};
ghost use Rattle.ioc_write.specs.WriteBack.{clock_entry, clock_line, clock_lines, has_variable, needs_lines, needs_of, number_of, pin_entry, signal_entry, spelled};

use crate::escapes::put_escaped;
use crate::plan::{Plan, pin_name};
use crate::variable::{Variable, put_value};
use res_base::{OutOfMemory, put_dec};
use res_model::{ClockChoice, PinUse, Signal, TableParts};
use std::alloc::Global;

/// How many of the signals are needs.
pub(crate) fn needs_of(signals: &[Signal]) -> usize
    ensures { result ≡ needs_of signals.now }
{
    signals.iter().filter(|signal| signal.need).count()
}

#[tactic(auto, unfolding(crate::specs::WriteBack::pin_entry))]
fn put_pin_entry(
    alloc: Global,
    out: &mut Vec<u8>,
    number: u64,
    pin: &[u8],
) -> Result<(), OutOfMemory>
    ensures { OnOk result (out.new.items ≡ out.old.items ++ pin_entry number pin.now) }
{
    out.extend_from_slice(b"Mcu.Pin")?;
    put_dec(alloc, out, number)?;
    out.extend_from_slice(b"=")?;
    put_escaped(out, pin)?;
    out.push(b'\n')?;
    Ok(())
}

#[tactic(auto, unfolding(crate::specs::WriteBack::signal_entry))]
fn put_signal_entry(out: &mut Vec<u8>, pin: &[u8], signal: &[u8]) -> Result<(), OutOfMemory>
    ensures { OnOk result (out.new.items ≡ out.old.items ++ signal_entry pin.now signal.now) }
{
    put_escaped(out, pin)?;
    out.extend_from_slice(b".Signal=")?;
    put_escaped(out, signal)?;
    out.push(b'\n')?;
    Ok(())
}

/// The two lines of a need.
fn put_need(
    alloc: Global,
    out: &mut Vec<u8>,
    number: u64,
    pin: &[u8],
    signal: &[u8],
) -> Result<(), OutOfMemory>
    ensures { OnOk result (out.new.items ≡ out.old.items ++ pin_entry number pin.now ++ signal_entry pin.now signal.now) }
{
    put_pin_entry(alloc, out, number, pin)?;
    put_signal_entry(out, pin, signal)
}

/// The number above the last one.
fn next_number(last: Option<u64>) -> u64
    requires { above last < 2 ^ 64 }
    ensures { result ≡ above last }
{
    match last {
        Some(number) => number + 1,
        None => 0,
    }
}

/// Appends the lines of the needs, numbered above the last number.
pub(crate) fn put_needs(
    alloc: Global,
    out: &mut Vec<u8>,
    t: &TableParts,
    last: Option<u64>,
    signals: &[Signal],
    uses: &[PinUse],
) -> Result<(), OutOfMemory>
    requires as_many { length uses.now ≡ length signals.now }
    requires room { above last + needs_of signals.now ≤ 2 ^ 64 }
    ensures { OnOk result (out.new.items ≡ out.old.items ++ needs_lines t.now (above last) signals.now uses.now) }
{
    let mut greatest = last;
    for k in 0..signals.len() {
        let signal = &signals[k];
        if signal.need {
            let number = next_number(greatest);
            put_need(
                alloc,
                out,
                number,
                pin_name(t, uses[k].pin),
                signal.name.as_str().as_bytes(),
            )?;
            greatest = Some(number);
        }
    }
    Ok(())
}

fn has_variable(keys: &[Variable], v: Variable) -> bool
    ensures { result ≡ has_variable keys.now v }
{
    let number = v.number();
    keys.iter().any(|key| key.number() == number)
}

#[tactic(auto, unfolding(crate::specs::WriteBack::clock_entry))]
fn put_clock_entry(
    alloc: Global,
    out: &mut Vec<u8>,
    c: &ClockChoice,
    v: Variable,
) -> Result<(), OutOfMemory>
    ensures { OnOk result (out.new.items ≡ out.old.items ++ clock_entry v (spelled c.now v)) }
{
    out.extend_from_slice(v.key())?;
    out.extend_from_slice(b"=")?;
    put_value(alloc, out, c, v)?;
    out.push(b'\n')?;
    Ok(())
}

#[tactic(auto, unfolding(crate::specs::WriteBack::clock_line))]
fn put_clock_line(
    alloc: Global,
    out: &mut Vec<u8>,
    plan: &Plan<'_>,
    keys: &[Variable],
    v: Variable,
) -> Result<(), OutOfMemory>
    requires { IsPlan plan.now }
    ensures { OnOk result (out.new.items ≡ out.old.items ++ clock_line plan.now.problem.now plan.now.at.now keys.now v) }
{
    if plan.is_away(v) && !has_variable(keys, v) {
        put_clock_entry(alloc, out, &plan.clocks(), v)
    } else {
        Ok(())
    }
}

/// Appends the keys of these variables that are away from their homes and have none yet.
pub(crate) fn put_clock_lines(
    alloc: Global,
    out: &mut Vec<u8>,
    plan: &Plan<'_>,
    keys: &[Variable],
    variables: &[Variable],
) -> Result<(), OutOfMemory>
    requires { IsPlan plan.now }
    ensures { OnOk result (out.new.items ≡ out.old.items ++ clock_lines plan.now.problem.now plan.now.at.now keys.now variables.now) }
{
    for v in variables {
        put_clock_line(alloc, out, plan, keys, *v)?;
    }
    Ok(())
}
