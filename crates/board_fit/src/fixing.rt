//! The project whose signals all stay where a placement has them.
ghost use Rattle.std.specs.Prelude.{◌≡◌, ◌<◌, ◌≤◌, ◌+◌, ◌∷◌, drop, length};
ghost use Rattle.choice_rank.specs.Choices.{IsChoice};
ghost use Rattle.problem.specs.Meets.{places_of};
ghost use Rattle.report.specs.Placed.{uses_of};
ghost use Rattle.res_model.specs.Placement.{uses_at};
ghost use Rattle.board_fit.specs.Fixed.{all_settled, fixed, settled};

use problem::Problem;
use res_base::Items;
use res_model::{PinUse, Project, Signal};

fn settle(signal: &mut Signal, pin: u8)
    ensures { signal.new ≡ settled signal.old pin }
{
    signal.home = Some(pin);
    signal.locked = true;
    signal.need = false;
}

/// The first of the uses from the signal of this number on.
fn first_use(q: &Problem, at: &[u16], signal: u16) -> PinUse
    requires choice { IsChoice q.now.shape at.now }
    requires signal { signal < length q.now.signals }
    ensures { uses_at (drop signal q.now.uses) (drop signal (places_of q.now at.now)) ≡ result ∷ uses_at (drop (signal + 1) q.now.uses) (drop (signal + 1) (places_of q.now at.now)) }
{
    q.parts_agree();
    q.use_of(at, signal)
}

/// That the signals are few.
fn few_signals(q: &Problem)
    ensures { length q.now.signals ≤ 160 }
{
    q.parts_agree();
}

fn settle_all(signals: &mut [Signal], q: &Problem, at: &[u16])
    requires choice { IsChoice q.now.shape at.now }
    requires signals { signals.old ≡ q.now.signals }
    ensures { signals.new ≡ all_settled signals.old (uses_of q.now at.now) }
{
    few_signals(q);
    for k in 0..signals.len() {
        let used = first_use(q, at, k as u16);
        settle(&mut signals[k], used.pin);
    }
}

fn all_settled(mut signals: Items<Signal>, q: &Problem, at: &[u16]) -> Items<Signal>
    requires choice { IsChoice q.now.shape at.now }
    requires signals { signals ≡ q.now.signals }
    ensures { result ≡ all_settled signals (uses_of q.now at.now) }
{
    settle_all(signals.as_vec_mut().as_mut_slice(), q, at);
    signals
}

/// The project in which each signal stands at its pin in a placement of these signals, is locked there, and is no need.
///
/// The placement is a choice of a problem of signals that are equal to the project's.
#[tactic(auto, unfolding(crate::specs::Fixed::fixed))]
pub fn fixed(p: Project, q: &Problem, at: &[u16]) -> Project
    requires choice { IsChoice q.now.shape at.now }
    requires signals { p.signals ≡ q.now.signals }
    ensures { result ≡ fixed p (uses_of q.now at.now) }
{
    let Project {
        signals,
        clock,
        hse_hz,
        marks,
    } = p;
    Project {
        signals: all_settled(signals, q, at),
        clock,
        hse_hz,
        marks,
    }
}
