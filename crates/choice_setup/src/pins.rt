//! What the signals set up at their pins.
ghost use Rattle.std.specs.Prelude.{◌≡◌, ◌≤◌, ◌+◌, ◌<◌, ◌∷◌, Some, drop, length, set};
ghost use Rattle.res_model.specs.Placement.{uses_at};
ghost use Rattle.choice_rank.specs.Choices.{IsChoice};
ghost use Rattle.problem.specs.Meets.{places_of};
ghost use Rattle.choice_setup.specs.SetUp.{drains, place_of, setup_of, setups_of, setups_from};

use init_gen::Setup;
use problem::Problem;
use res_model::{PinUse, Signal, Tables};

/// The places of the pins of nine ports.
const PLACES: usize = 144;

fn drains(t: &Tables, name: &[u8]) -> bool
    ensures { result ≡ drains t.now name.now }
{
    match t.signal_named(name) {
        Some(signal) => signal.drain,
        None => false,
    }
}

/// The place of a pin: its port times 16 plus its number.
fn place_of(t: &Tables, pin: u8) -> u8
    requires { pin < length t.now.pins }
    ensures place { result ≡ place_of t.now pin }
    ensures within { result < 144 }
{
    let (port, number) = t.port_of(pin);
    port * 16 + number
}

fn setup_of(t: &Tables, s: &Signal, u: PinUse) -> Setup
    ensures { result ≡ setup_of t.now s.now u }
{
    Setup {
        mode: u.mode,
        pull: s.pull,
        speed: s.speed,
        drain: drains(t, s.name.as_str().as_bytes()),
    }
}

/// The first of the uses from the signal of this number on.
fn first_use(p: &Problem, at: &[u16], signal: u16) -> PinUse
    requires choice { IsChoice p.now.shape at.now }
    requires signal { signal < length p.now.signals }
    ensures first { uses_at (drop signal p.now.uses) (drop signal (places_of p.now at.now)) ≡ result ∷ uses_at (drop (signal + 1) p.now.uses) (drop (signal + 1) (places_of p.now at.now)) }
    ensures pin { result.pin < length p.now.tables.pins }
{
    p.parts_agree();
    p.use_of(at, signal)
}

/// What a signal sets up, and where.
#[derive(Clone, Copy)]
struct Placed {
    place: u8,
    setup: Setup,
}

/// What the signal of this number sets up, in front of what the later ones do.
fn set_up(p: &Problem, at: &[u16], signal: u16) -> Placed
    requires choice { IsChoice p.now.shape at.now }
    requires signal { signal < length p.now.signals }
    ensures place { result.place < 144 }
    ensures setup { set (setups_from p.now at.now (signal + 1)) result.place (Some result.setup) ≡ setups_from p.now at.now signal }
{
    let parts = p.parts();
    let used = first_use(p, at, signal);
    let setter = &parts.signals.as_slice()[signal as usize];
    Placed {
        place: place_of(&parts.tables, used.pin),
        setup: setup_of(&parts.tables, setter, used),
    }
}

/// What the signals set up at each place. Going from the last to the first, the first at a pin is the one that stays.
pub(crate) fn setups_of(p: &Problem, at: &[u16]) -> [Option<Setup>; PLACES]
    requires { IsChoice p.now.shape at.now }
    ensures { result ≡ setups_of p.now.tables p.now.signals (uses_at p.now.uses (places_of p.now at.now)) }
{
    few_signals(p);
    let mut signal = p.parts().signals.len();
    let mut setups = [None; PLACES];
    while signal > 0 {
        signal -= 1;
        let placed = set_up(p, at, signal as u16);
        setups[placed.place as usize] = Some(placed.setup);
    }
    setups
}

/// That the signals are few.
fn few_signals(p: &Problem)
    ensures { length p.now.signals ≤ 160 }
{
    p.parts_agree();
}
