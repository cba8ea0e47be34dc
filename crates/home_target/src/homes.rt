//! The modes of the homes.
ghost use Rattle.std.specs.Prelude.{◌≡◌, ◌+◌, ◌<◌, ◌∷◌, drop, length, IfOk, IfSome};
ghost use Rattle.res_base.specs.Lists.{Each};
ghost use Rattle.res_model.specs.Placed.{IsPlaced};
ghost use Rattle.res_model.specs.declared.project.Signal.{Signal};
ghost use Rattle.init_gen.specs.PinWrites.{mode_wanted};
ghost use Rattle.home_target.specs.Homes.{at_home, home_modes, home_use, no_modes, place_of, with_use};

use pin_rules::candidates;
use res_base::OutOfMemory;
use res_model::{Mode, PinUse, Signal, Tables};
use std::alloc::Global;

/// The places of the pins of nine ports.
const PLACES: usize = 144;

/// The first of a signal's uses, where it is of the home.
fn at_home(home: u8, uses: &[PinUse]) -> Option<PinUse>
    ensures { result ≡ at_home home uses.now }
{
    if !uses.is_empty() && uses[0].pin == home {
        Some(uses[0])
    } else {
        None
    }
}

/// The use that a signal makes of its home.
#[tactic(auto, unfolding(crate::specs::Homes::home_use))]
fn home_use(alloc: Global, t: &Tables, s: &Signal) -> Result<Option<PinUse>, OutOfMemory>
    ensures { IfOk result (λ u. u ≡ home_use t.now s.now) }
{
    match s.home {
        None => Ok(None),
        Some(home) => {
            let uses = candidates(alloc, t, s)?;
            Ok(at_home(home, uses.as_slice()))
        }
    }
}

fn mode_wanted(mode: Mode) -> Option<Mode>
    ensures { result ≡ mode_wanted mode }
{
    match mode {
        Mode::Exti => Some(Mode::Input),
        Mode::Osc | Mode::Held => None,
        Mode::Alt(_) | Mode::Input | Mode::Output | Mode::Analog => Some(mode),
    }
}

/// The place of a pin: its port times 16 plus its number.
fn place_of(t: &Tables, pin: u8) -> u8
    requires { pin < length t.now.pins }
    ensures place { result ≡ place_of t.now pin }
    ensures within { result < 144 }
{
    let (port, number) = t.port_of(pin);
    port * 16 + number
}

/// Sets the mode of a use, if there is one.
fn put_use(t: &Tables, found: Option<PinUse>, modes: &mut [Option<Mode>; PLACES])
    requires { IfSome found (λ u. u.pin < length t.now.pins) }
    ensures { modes.new ≡ with_use t.now found modes.old }
{
    if let Some(found) = found {
        modes[place_of(t, found.pin) as usize] = mode_wanted(found.mode);
    }
}

/// That a signal's home is a pin of the table.
fn is_there(t: &Tables, s: &Signal, found: Option<PinUse>)
    requires placed { IsPlaced t.now s.now }
    requires found { found ≡ home_use t.now s.now }
    ensures { IfSome found (λ u. u.pin < length t.now.pins) }
{
    let _ = t;
    let _ = s;
    let _ = found;
}

#[tactic(auto, unfolding(crate::specs::Homes::no_modes))]
fn no_modes() -> [Option<Mode>; PLACES]
    ensures { result ≡ no_modes }
{
    [None; PLACES]
}

/// The signal of this number.
fn signal_at(signals: &[Signal], k: usize) -> &Signal
    requires { k < length signals.now }
    ensures { drop k signals.now ≡ result.now ∷ drop (k + 1) signals.now }
{
    &signals[k]
}

fn placed_at(t: &Tables, signals: &[Signal], k: usize)
    requires there { k < length signals.now }
    requires placed { Each (IsPlaced t.now) signals.now }
    ensures { (s : Signal) → drop k signals.now ≡ s ∷ drop (k + 1) signals.now → IsPlaced t.now s }
{
    let _ = t;
    let _ = signals;
    let _ = k;
}

/// The mode of each home, at port times 16 plus number: that of the first signal there. Going from the last to the first, the
/// first at a pin is the one that stays.
pub(crate) fn home_modes(
    alloc: Global,
    t: &Tables,
    signals: &[Signal],
) -> Result<[Option<Mode>; PLACES], OutOfMemory>
    requires { Each (IsPlaced t.now) signals.now }
    ensures { IfOk result (λ modes. modes ≡ home_modes t.now signals.now) }
{
    let mut k = signals.len();
    let mut modes = no_modes();
    'homes: while k > 0 {
        k -= 1;
        let signal = signal_at(signals, k);
        placed_at(t, signals, k);
        let found = home_use(alloc, t, signal)?;
        is_there(t, signal, found);
        put_use(t, found, &mut modes);
    }
    Ok(modes)
}
