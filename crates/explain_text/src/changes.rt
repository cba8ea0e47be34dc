//! What a choice changes against a project.
ghost use Rattle.std.specs.Prelude.{◌≡◌, ◌≢◌, ◌≤◌, ◌<◌, ◌++◌, length, IfOk, OnOk, string_bytes};
ghost use Rattle.choice_rank.specs.Choices.{IsChoice};
ghost use Rattle.explain_text.specs.Changes.{change_at, changes, move_from, moves_line, signal_change, takes_line};
ghost use Rattle.explain_text.specs.Joined.{joined};

use crate::clocks::clock_changes;
use crate::rivals::pin_name;
use problem::Problem;
use res_base::OutOfMemory;
use res_model::{Home, PinUse, Signal, TableParts};
use std::alloc::{AllocError, Global};

#[tactic(auto, unfolding(crate::specs::Changes::takes_line))]
fn takes_line(alloc: Global, name: &str, pin: &str) -> Result<String, AllocError>
    ensures { IfOk result (λ x. string_bytes x ≡ takes_line name.now pin.now) }
{
    let mut line = String::from_str(alloc, name)?;
    line.push_str(" takes ")?;
    line.push_str(pin)?;
    line.push_str("\n")?;
    Ok(line)
}

#[tactic(auto, unfolding(crate::specs::Changes::moves_line))]
fn moves_line(alloc: Global, name: &str, home: &str, pin: &str) -> Result<String, AllocError>
    ensures { IfOk result (λ x. string_bytes x ≡ moves_line name.now home.now pin.now) }
{
    let mut line = String::from_str(alloc, name)?;
    line.push_str(" moves from ")?;
    line.push_str(home)?;
    line.push_str(" to ")?;
    line.push_str(pin)?;
    line.push_str("\n")?;
    Ok(line)
}

/// The line of a signal that leaves its home, where it has one.
fn move_from(
    alloc: Global,
    t: &TableParts,
    name: &str,
    home: Option<u8>,
    pin: u8,
) -> Result<String, AllocError>
    ensures { IfOk result (λ x. string_bytes x ≡ move_from t.now name.now home pin) }
{
    match home {
        None => Ok(String::new(alloc)),
        Some(home) if home == pin => Ok(String::new(alloc)),
        Some(home) => moves_line(alloc, name, pin_name(t, home), pin_name(t, pin)),
    }
}

/// What a use of a pin changes for a signal.
fn signal_change(
    alloc: Global,
    t: &TableParts,
    signal: &Signal,
    at: PinUse,
) -> Result<String, AllocError>
    ensures { IfOk result (λ x. string_bytes x ≡ signal_change t.now signal.now at) }
{
    let name = signal.name.as_str();
    if signal.need {
        takes_line(alloc, name, pin_name(t, at.pin))
    } else {
        move_from(alloc, t, name, signal.home, at.pin)
    }
}

/// What a choice changes for the signal of this place.
#[tactic(auto, unfolding(crate::specs::Changes::change_at))]
fn change_at(alloc: Global, p: &Problem, at: &[u16], i: u16) -> Result<String, AllocError>
    requires choice { IsChoice p.now.shape at.now }
    requires signal { i < length p.now.signals }
    ensures { IfOk result (λ x. string_bytes x ≡ change_at p.now at.now i) }
{
    let parts = p.parts();
    match parts.signals.as_slice().get(usize::from(i)) {
        None => Ok(String::new(alloc)),
        Some(signal) => signal_change(alloc, parts.tables.parts(), signal, p.use_of(at, i)),
    }
}

/// That signals are few.
fn are_few(p: &Problem)
    ensures { length p.now.signals ≤ 160 }
{
    p.parts_agree();
}

/// Appends what a choice changes for each signal.
fn put_changes(alloc: Global, out: &mut Vec<u8>, p: &Problem, at: &[u16]) -> Result<(), OutOfMemory>
    requires { IsChoice p.now.shape at.now }
    ensures { OnOk result (out.new.items ≡ out.old.items ++ joined (length p.now.signals) (change_at p.now at.now)) }
{
    are_few(p);
    for i in 0..p.parts().signals.len() {
        let line = change_at(alloc, p, at, i as u16)?;
        out.extend_from_slice(line.as_bytes())?;
    }
    Ok(())
}

/// What a choice changes against the project: a line for each clock variable that leaves its home, then one for each need
/// and for each other signal that leaves its home.
///
/// `homes` has the homes of the clock variables, which the problem has only where they are in their domains.
#[tactic(auto, unfolding(crate::specs::Changes::changes))]
pub fn changes_text(
    alloc: Global,
    homes: &[Home; 10],
    p: &Problem,
    at: &[u16],
) -> Result<Vec<u8>, OutOfMemory>
    requires choice { IsChoice p.now.shape at.now }
    requires whole { p.now.first ≢ 0 }
    ensures { IfOk result (λ x. x.items ≡ changes homes.now p.now at.now) }
{
    let clocks = clock_changes(alloc, homes, &p.clock_of(at))?;
    let mut out = Vec::from_slice(alloc, clocks.as_bytes())?;
    put_changes(alloc, &mut out, p, at)?;
    Ok(out)
}
