//! The things that could be given up, in their order.
ghost use Rattle.std.specs.Prelude.{◌≡◌, ◌++◌, [], codes, length, map, IfOk, OnOk, option_copied, slice_get};
ghost use Rattle.std.specs.Option.{option_map_or};
ghost use Rattle.ioc_text.specs.Lines.{line_at};
ghost use Rattle.explain.specs.Things.{free_thing, keep_from, line_things, lock_at_home, lock_from, lock_key, lock_of, lock_thing, need_thing, option_things, pin_at_home, pin_of, pin_thing, things, things_below, true_line, wish_thing};

use crate::kinds::Thing;
use crate::lines::{has_no_rows, pin_line, true_line};
use explain_text::pin_name;
use ioc_text::{Ioc, Line};
use problem::Problem;
use res_base::OutOfMemory;
use res_model::{Free, Opts, Signal, Tables};
use std::alloc::Global;

/// Appends the needs.
fn put_needs(out: &mut Vec<Thing>, count: usize) -> Result<(), OutOfMemory>
    ensures { OnOk result (out.new.items ≡ out.old.items ++ things_below count need_thing) }
{
    for k in 0..count {
        out.push(Thing::Need { number: k + 1 })?;
    }
    Ok(())
}

/// Appends a wish that is there.
fn put_wish(out: &mut Vec<Thing>, wish: Option<u64>, thing: Thing) -> Result<(), OutOfMemory>
    ensures { OnOk result (out.new.items ≡ out.old.items ++ wish_thing wish thing) }
{
    if wish.is_some() {
        out.push(thing)?;
    }
    Ok(())
}

/// Appends what is not all that is free.
fn put_free(out: &mut Vec<Thing>, free: Free) -> Result<(), OutOfMemory>
    ensures { OnOk result (out.new.items ≡ out.old.items ++ free_thing free) }
{
    match free {
        Free::All => {}
        Free::Pins | Free::Clock | Free::Nothing => out.push(Thing::Freed)?,
    }
    Ok(())
}

/// Appends the options that could be left out.
#[tactic(auto, unfolding(crate::specs::Things::option_things))]
fn option_things(alloc: Global, opts: &Opts) -> Result<Vec<Thing>, OutOfMemory>
    ensures { IfOk result (λ x. x.items ≡ option_things opts.now) }
{
    let mut out = Vec::new(alloc);
    put_needs(&mut out, opts.needs.len())?;
    put_wish(&mut out, opts.hclk, Thing::Hclk)?;
    put_wish(&mut out, opts.pclk1, Thing::Pclk1)?;
    put_wish(&mut out, opts.pclk2, Thing::Pclk2)?;
    put_free(&mut out, opts.free)?;
    Ok(out)
}

/// The line that keeps all signals.
fn keep_line(ioc: &Ioc) -> Option<u32>
    ensures { result ≡ true_line (line_at ioc.now (codes "KeepUserPlacement")) }
{
    true_line(ioc.get(b"KeepUserPlacement"))
}

/// Appends that all signals are kept, where a line says so.
fn put_keep(out: &mut Vec<Thing>, line: Option<u32>) -> Result<(), OutOfMemory>
    ensures { OnOk result (out.new.items ≡ out.old.items ++ keep_from line) }
{
    match line {
        None => {}
        Some(line) => out.push(Thing::Keep { line })?,
    }
    Ok(())
}

/// The key that locks the signal at a pin.
fn lock_key(alloc: Global, pin: &str) -> Result<Vec<u8>, OutOfMemory>
    ensures { IfOk result (λ x. x.items ≡ lock_key pin.now) }
{
    let mut key = Vec::from_slice(alloc, pin.as_bytes())?;
    key.extend_from_slice(b".Locked")?;
    Ok(key)
}

/// The line that locks the signal at a pin.
fn lock_line(alloc: Global, ioc: &Ioc, pin: &str) -> Result<Option<u32>, OutOfMemory>
    ensures { IfOk result (λ line. line ≡ true_line (line_at ioc.now (lock_key pin.now))) }
{
    let key = lock_key(alloc, pin)?;
    Ok(true_line(ioc.get(key.as_slice())))
}

/// Appends a lock whose line was found.
fn put_lock_from(out: &mut Vec<Thing>, signal: usize, line: Option<u32>) -> Result<(), OutOfMemory>
    ensures { OnOk result (out.new.items ≡ out.old.items ++ lock_from signal line) }
{
    match line {
        None => {}
        Some(line) => out.push(Thing::Lock { signal, line })?,
    }
    Ok(())
}

/// Appends the lock of a signal with this home.
fn put_lock_at(
    alloc: Global,
    out: &mut Vec<Thing>,
    t: &Tables,
    ioc: &Ioc,
    i: usize,
    home: Option<u8>,
) -> Result<(), OutOfMemory>
    ensures { OnOk result (out.new.items ≡ out.old.items ++ lock_at_home t.now ioc.now i home) }
{
    match home {
        None => Ok(()),
        Some(home) => {
            let line = lock_line(alloc, ioc, pin_name(t.parts(), home))?;
            put_lock_from(out, i, line)
        }
    }
}

/// Appends the lock of a signal.
fn put_lock_of(
    alloc: Global,
    out: &mut Vec<Thing>,
    t: &Tables,
    ioc: &Ioc,
    i: usize,
    signal: &Signal,
) -> Result<(), OutOfMemory>
    ensures { OnOk result (out.new.items ≡ out.old.items ++ lock_of t.now ioc.now i signal.now) }
{
    if has_no_rows(t, signal) {
        Ok(())
    } else {
        put_lock_at(alloc, out, t, ioc, i, signal.home)
    }
}

/// The signal of this place.
fn signal_at(signals: &[Signal], i: usize) -> Option<&Signal>
    ensures { option_copied result ≡ slice_get signals.now i }
{
    signals.get(i)
}

/// Appends the lock of a signal that is there.
fn put_lock_if(
    alloc: Global,
    out: &mut Vec<Thing>,
    t: &Tables,
    ioc: &Ioc,
    i: usize,
    signal: Option<&Signal>,
) -> Result<(), OutOfMemory>
    ensures { OnOk result (out.new.items ≡ out.old.items ++ option_map_or (lock_of t.now ioc.now i) (option_copied signal.entry) []) }
{
    match signal {
        None => Ok(()),
        Some(signal) => put_lock_of(alloc, out, t, ioc, i, signal),
    }
}

/// Appends the lock of the signal of this place.
#[tactic(auto, unfolding(crate::specs::Things::lock_thing))]
fn put_lock(
    alloc: Global,
    out: &mut Vec<Thing>,
    t: &Tables,
    ioc: &Ioc,
    signals: &[Signal],
    i: usize,
) -> Result<(), OutOfMemory>
    ensures { OnOk result (out.new.items ≡ out.old.items ++ lock_thing t.now ioc.now signals.now i) }
{
    put_lock_if(alloc, out, t, ioc, i, signal_at(signals, i))
}

/// Appends the lock of each signal.
fn put_locks(
    alloc: Global,
    out: &mut Vec<Thing>,
    t: &Tables,
    ioc: &Ioc,
    signals: &[Signal],
) -> Result<(), OutOfMemory>
    ensures { OnOk result (out.new.items ≡ out.old.items ++ things_below (length signals.now) (lock_thing t.now ioc.now signals.now)) }
{
    for i in 0..signals.len() {
        put_lock(alloc, out, t, ioc, signals, i)?;
    }
    Ok(())
}

/// Appends the pin of a signal with this home.
fn put_pin_at(
    out: &mut Vec<Thing>,
    t: &Tables,
    lines: &[&Line],
    i: usize,
    home: Option<u8>,
) -> Result<(), OutOfMemory>
    ensures { OnOk result (out.new.items ≡ out.old.items ++ pin_at_home t.now (map (λ line. line.now) lines.now) i home) }
{
    let Some(home) = home else {
        return Ok(());
    };
    match pin_line(lines, pin_name(t.parts(), home).as_bytes()) {
        None => {}
        Some(line) => out.push(Thing::Pin {
            signal: i,
            line: line.number,
        })?,
    }
    Ok(())
}

/// Appends the pin of a signal.
fn put_pin_of(
    out: &mut Vec<Thing>,
    t: &Tables,
    lines: &[&Line],
    i: usize,
    signal: &Signal,
) -> Result<(), OutOfMemory>
    ensures { OnOk result (out.new.items ≡ out.old.items ++ pin_of t.now (map (λ line. line.now) lines.now) i signal.now) }
{
    if has_no_rows(t, signal) {
        put_pin_at(out, t, lines, i, signal.home)
    } else {
        Ok(())
    }
}

/// Appends the pin of a signal that is there.
fn put_pin_if(
    out: &mut Vec<Thing>,
    t: &Tables,
    lines: &[&Line],
    i: usize,
    signal: Option<&Signal>,
) -> Result<(), OutOfMemory>
    ensures { OnOk result (out.new.items ≡ out.old.items ++ option_map_or (pin_of t.now (map (λ line. line.now) lines.now) i) (option_copied signal.entry) []) }
{
    match signal {
        None => Ok(()),
        Some(signal) => put_pin_of(out, t, lines, i, signal),
    }
}

/// Appends the pin of the signal of this place.
#[tactic(auto, unfolding(crate::specs::Things::pin_thing))]
fn put_pin(
    out: &mut Vec<Thing>,
    t: &Tables,
    lines: &[&Line],
    signals: &[Signal],
    i: usize,
) -> Result<(), OutOfMemory>
    ensures { OnOk result (out.new.items ≡ out.old.items ++ pin_thing t.now (map (λ line. line.now) lines.now) signals.now i) }
{
    put_pin_if(out, t, lines, i, signal_at(signals, i))
}

/// Appends the pin of each signal.
fn put_pins(
    out: &mut Vec<Thing>,
    t: &Tables,
    lines: &[&Line],
    signals: &[Signal],
) -> Result<(), OutOfMemory>
    ensures { OnOk result (out.new.items ≡ out.old.items ++ things_below (length signals.now) (pin_thing t.now (map (λ line. line.now) lines.now) signals.now)) }
{
    for i in 0..signals.len() {
        put_pin(out, t, lines, signals, i)?;
    }
    Ok(())
}

/// The lines that could be left out.
#[tactic(auto, unfolding(crate::specs::Things::line_things))]
fn line_things(
    alloc: Global,
    t: &Tables,
    ioc: &Ioc,
    signals: &[Signal],
) -> Result<Vec<Thing>, OutOfMemory>
    ensures { IfOk result (λ x. x.items ≡ line_things t.now ioc.now signals.now) }
{
    let mut out = Vec::new(alloc);
    put_keep(&mut out, keep_line(ioc))?;
    put_locks(alloc, &mut out, t, ioc, signals)?;
    let lines = ioc.lines(alloc)?;
    put_pins(&mut out, t, lines.as_slice(), signals)?;
    Ok(out)
}

/// The single things that could be given up, in their order: needs, wishes, what `--free` holds fixed, and the lines that
/// keep all signals, lock one, or list the pin of one that can be nowhere else.
#[tactic(auto, unfolding(crate::specs::Things::things))]
pub fn things(alloc: Global, ioc: &Ioc, opts: &Opts, p: &Problem) -> Result<Vec<Thing>, OutOfMemory>
    ensures { IfOk result (λ x. x.items ≡ things p.now.tables ioc.now opts.now p.now.signals) }
{
    let parts = p.parts();
    let mut out = option_things(alloc, opts)?;
    let lines = line_things(alloc, &parts.tables, ioc, parts.signals.as_slice())?;
    out.extend_from_slice(lines.as_slice())?;
    Ok(out)
}
