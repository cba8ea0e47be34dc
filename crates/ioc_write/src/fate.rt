//! What a choice makes of the lines of each pin.
ghost use Rattle.std.specs.Prelude.{◌≡◌, ◌==◌, ◌≤◌, length, IfOk};
ghost use Rattle.std.specs.List.{list_any};
ghost use Rattle.ioc_project.specs.Project.{is_some_of};
ghost use Rattle.ioc_write.specs.Plans.{AreFates};
ghost use Rattle.ioc_write.specs.WriteBack.{fate_of, home_use};

use res_base::OutOfMemory;
use res_model::{PinUse, Signal};
use std::alloc::Global;

/// What becomes of the lines of a pin.
#[derive(Clone, Copy, Debug, PartialEq, Eq)]
pub(crate) enum Fate {
    /// They stay.
    Kept,
    /// They go along with the signal that was at home there, to the pin at this place.
    Moved(u8),
    /// They go: a signal comes to a pin that was no home.
    Taken,
}

fn is_home(signal: &Signal, pin: u8) -> bool
    ensures { result ≡ is_some_of signal.now.home pin }
{
    match signal.home {
        Some(home) => home == pin,
        None => false,
    }
}

/// The use of the signal that is at home at a pin.
fn home_use(signals: &[Signal], uses: &[PinUse], pin: u8) -> Option<PinUse>
    requires { length uses.now ≡ length signals.now }
    ensures { result ≡ home_use signals.now uses.now pin }
{
    for k in 0..signals.len() {
        if is_home(&signals[k], pin) {
            return Some(uses[k]);
        }
    }
    None
}

fn is_used(uses: &[PinUse], pin: u8) -> bool
    ensures { result ≡ list_any (λ u. u.pin == pin) uses.now }
{
    uses.iter().any(|used| used.pin == pin)
}

#[tactic(auto, unfolding(crate::specs::WriteBack::fate_of))]
fn fate_of(signals: &[Signal], uses: &[PinUse], pin: u8) -> Fate
    requires { length uses.now ≡ length signals.now }
    ensures { result ≡ fate_of signals.now uses.now pin }
{
    match home_use(signals, uses, pin) {
        Some(used) => {
            if used.pin == pin {
                Fate::Kept
            } else {
                Fate::Moved(used.pin)
            }
        }
        None => {
            if is_used(uses, pin) {
                Fate::Taken
            } else {
                Fate::Kept
            }
        }
    }
}

/// What becomes of the lines of each pin, by its place.
pub(crate) fn fates_of(
    alloc: Global,
    signals: &[Signal],
    uses: &[PinUse],
    pins: usize,
) -> Result<Vec<Fate>, OutOfMemory>
    requires as_many { length uses.now ≡ length signals.now }
    requires few { pins ≤ 144 }
    ensures { IfOk result (λ v. AreFates signals.now uses.now v.items pins) }
{
    let mut fates = Vec::with_capacity(alloc, pins)?;
    for pin in 0..pins {
        fates.push(fate_of(signals, uses, pin as u8))?;
    }
    Ok(fates)
}
