//! The signals of the pins, with their homes.
ghost use Rattle.std.specs.Prelude.{◌≡◌, ◌==◌, ◌++◌, false, codes, map, IfOk};
ghost use Rattle.std.specs.List.{list_any, starts_with};
ghost use Rattle.ioc_text.specs.Lines.{line_at};
ghost use Rattle.ioc_project.specs.Project.{truth_of, pull_of, speed_of, value_or, is_virtual, pin_line_at, is_some_of, is_taken, place_for, signal_given, name_given, is_misplaced, candidate, signal_of, with_pin, signals_after};
ghost use Rattle.refusal.specs.Refusals.{Gives, Tells};
ghost use Rattle.res_model.specs.declared.project.Pull.TheVariants.{None as NoPull};
ghost use Rattle.res_model.specs.declared.project.Speed.TheVariants.{Low};
ghost use Rattle.ioc_project.specs.Views.{seen_signal};

use crate::fault::ProjectFault;
use crate::values::{pull_of, speed_of, truth_at};
use ioc_text::{Ioc, Line};
use refusal::Refusal;
use res_base::{OutOfMemory, Text};
use res_model::{PinUse, Pull, Signal, Speed, TableSignal, Tables};
use std::alloc::Global;

/// Whether a pin holds no place.
pub(crate) fn is_virtual(name: &[u8]) -> bool
    ensures { result ≡ is_virtual name.now }
{
    name.starts_with(b"VP_")
}

/// The key that tells this of a pin.
pub(crate) fn pin_key(alloc: Global, pin: &[u8], what: &[u8]) -> Result<Vec<u8>, OutOfMemory>
    ensures { IfOk result (λ key. key.items ≡ pin.now ++ what.now) }
{
    let mut key = Vec::from_slice(alloc, pin)?;
    key.extend_from_slice(what)?;
    Ok(key)
}

fn is_home(signal: &Signal, place: u8) -> bool
    ensures { result ≡ is_some_of signal.now.home place }
{
    match signal.home {
        None => false,
        Some(home) => home == place,
    }
}

/// Whether some signal is at home there.
#[tactic(auto, unfolding(crate::specs::Project::is_taken))]
fn is_taken(signals: &[Signal], place: u8) -> bool
    ensures { result ≡ is_taken signals.now place }
{
    signals.iter().any(|signal| is_home(signal, place))
}

/// The place of a pin's line, where none of the signals before is.
#[tactic(auto, unfolding(crate::specs::Project::place_for, crate::specs::Project::place_of, res_model::specs::PinNames::place))]
fn place_for(t: &Tables, before: &[Signal], line: &Line) -> Result<u8, Refusal<ProjectFault>>
    ensures { Tells (λ place. place) result (place_for t.now before.now line.now) }
{
    let Some(place) = t.pin_of(line.value.as_slice()) else {
        return Err(Refusal::Fault(ProjectFault::UnknownPin { line: line.number }));
    };
    if is_taken(before, place) {
        return Err(Refusal::Fault(ProjectFault::BadValue { line: line.number }));
    }
    Ok(place)
}

/// The table's signal that a pin's line names, with the line's number; none for a pin that is held.
fn signal_given<'t>(
    alloc: Global,
    t: &'t Tables,
    ioc: &Ioc,
    pin: &[u8],
) -> Result<Option<(u32, &'t TableSignal)>, Refusal<ProjectFault>>
    ensures { Gives seen_signal result (signal_given t.now (pin_line_at ioc.now pin.now (codes ".Signal"))) }
{
    let key = pin_key(alloc, pin, b".Signal")?;
    let Some(line) = ioc.get(key.as_slice()) else {
        return Ok(None);
    };
    match t.signal_named(line.value.as_slice()) {
        None => Err(Refusal::Fault(ProjectFault::UnknownSignal { line: line.number })),
        Some(signal) => Ok(Some((line.number, signal))),
    }
}

fn name_given<'t>(given: Option<(u32, &'t TableSignal)>) -> &'t str
    ensures { result.now ≡ name_given (seen_signal given.entry) }
{
    match given {
        None => "-",
        Some((_, signal)) => signal.name.as_str(),
    }
}

fn is_locked(alloc: Global, ioc: &Ioc, pin: &[u8]) -> Result<bool, Refusal<ProjectFault>>
    ensures { Gives (λ locked. locked) result (value_or false truth_of (pin_line_at ioc.now pin.now (codes ".Locked"))) }
{
    let key = pin_key(alloc, pin, b".Locked")?;
    truth_at(ioc, key.as_slice())
}

fn pull_given(alloc: Global, ioc: &Ioc, pin: &[u8]) -> Result<Pull, Refusal<ProjectFault>>
    ensures { Gives (λ pull. pull) result (value_or NoPull pull_of (pin_line_at ioc.now pin.now (codes ".GPIO_PuPd"))) }
{
    let key = pin_key(alloc, pin, b".GPIO_PuPd")?;
    let Some(line) = ioc.get(key.as_slice()) else {
        return Ok(Pull::None);
    };
    pull_of(line.value.as_slice()).ok_or(Refusal::Fault(ProjectFault::BadValue {
        line: line.number,
    }))
}

fn speed_given(alloc: Global, ioc: &Ioc, pin: &[u8]) -> Result<Speed, Refusal<ProjectFault>>
    ensures { Gives (λ speed. speed) result (value_or Low speed_of (pin_line_at ioc.now pin.now (codes ".GPIO_Speed"))) }
{
    let key = pin_key(alloc, pin, b".GPIO_Speed")?;
    let Some(line) = ioc.get(key.as_slice()) else {
        return Ok(Speed::Low);
    };
    speed_of(line.value.as_slice()).ok_or(Refusal::Fault(ProjectFault::BadValue {
        line: line.number,
    }))
}

fn has_row_at(rows: &[PinUse], place: u8) -> bool
    ensures { result ≡ list_any (λ u. u.pin == place) rows.now }
{
    rows.iter().any(|u| u.pin == place)
}

/// Whether a signal has rows, and none of them at the place.
#[tactic(auto, unfolding(crate::specs::Project::is_misplaced))]
fn is_misplaced(signal: &TableSignal, place: u8) -> bool
    ensures { result ≡ is_misplaced signal.now place }
{
    signal.at.len() != 0 && !has_row_at(signal.at.as_slice(), place)
}

/// A signal that must stay can be where it is.
fn candidate(
    locked: bool,
    place: u8,
    given: Option<(u32, &TableSignal)>,
) -> Result<(), Refusal<ProjectFault>>
    ensures { Tells (λ unit. unit) result (candidate locked place (seen_signal given.entry)) }
{
    let Some((line, signal)) = given else {
        return Ok(());
    };
    if locked && is_misplaced(signal, place) {
        return Err(Refusal::Fault(ProjectFault::NotCandidate { line }));
    }
    Ok(())
}

/// The signal of a pin's line, where `before` are those of smaller k.
#[tactic(auto, unfolding(crate::specs::Project::signal_of))]
fn signal_of(
    alloc: Global,
    t: &Tables,
    ioc: &Ioc,
    kept: bool,
    before: &[Signal],
    line: &Line,
) -> Result<Signal, Refusal<ProjectFault>>
    ensures { Gives (λ signal. signal) result (signal_of t.now ioc.now kept before.now line.now) }
{
    let pin = line.value.as_slice();
    let place = place_for(t, before, line)?;
    let given = signal_given(alloc, t, ioc, pin)?;
    let locked = is_locked(alloc, ioc, pin)?;
    let pull = pull_given(alloc, ioc, pin)?;
    let speed = speed_given(alloc, ioc, pin)?;
    candidate(locked || kept, place, given)?;
    Ok(Signal {
        name: Text::copy(alloc, name_given(given))?,
        home: Some(place),
        locked: locked || kept,
        need: false,
        pull,
        speed,
    })
}

/// Appends the signal of a pin's line, unless the pin holds no place.
#[tactic(auto, unfolding(crate::specs::Project::with_pin))]
fn push_signal(
    alloc: Global,
    t: &Tables,
    ioc: &Ioc,
    kept: bool,
    signals: &mut Vec<Signal>,
    line: &Line,
) -> Result<(), Refusal<ProjectFault>>
    ensures { Gives (λ _. signals.new.items) result (with_pin t.now ioc.now kept signals.old.items line.now) }
{
    if is_virtual(line.value.as_slice()) {
        return Ok(());
    }
    let signal = signal_of(alloc, t, ioc, kept, signals.as_slice(), line)?;
    signals.push(signal)?;
    Ok(())
}

/// Appends the signals of the pins' lines.
pub(crate) fn push_signals(
    alloc: Global,
    t: &Tables,
    ioc: &Ioc,
    kept: bool,
    signals: &mut Vec<Signal>,
    pins: &[&Line],
) -> Result<(), Refusal<ProjectFault>>
    ensures { Gives (λ _. signals.new.items) result (signals_after t.now ioc.now kept signals.old.items (map (λ line. line.now) pins.now)) }
{
    for line in pins {
        push_signal(alloc, t, ioc, kept, signals, *line)?;
    }
    Ok(())
}
