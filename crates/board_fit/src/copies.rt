//! An equal project: the pins are searched in one, and the clocks in the other.
ghost use Rattle.std.specs.Prelude.{◌≡◌, IfOk};

use res_base::{Items, OutOfMemory, Text};
use res_model::{Project, Signal};
use std::alloc::Global;

fn copied_text(alloc: Global, text: &Text) -> Result<Text, OutOfMemory>
    ensures { IfOk result (λ t. t ≡ text.now) }
{
    Text::copy(alloc, text.as_str())
}

fn copied_signal(alloc: Global, signal: &Signal) -> Result<Signal, OutOfMemory>
    ensures { IfOk result (λ s. s ≡ signal.now) }
{
    let name = copied_text(alloc, &signal.name)?;
    Ok(Signal {
        name,
        home: signal.home,
        locked: signal.locked,
        need: signal.need,
        pull: signal.pull,
        speed: signal.speed,
    })
}

fn copied_signals(alloc: Global, signals: &[Signal]) -> Result<Items<Signal>, OutOfMemory>
    ensures { IfOk result (λ v. v ≡ signals.now) }
{
    let mut found = Vec::new(alloc);
    for signal in signals {
        found.push(copied_signal(alloc, signal)?)?;
    }
    Ok(Items::of(found))
}

fn copied_texts(alloc: Global, texts: &[Text]) -> Result<Items<Text>, OutOfMemory>
    ensures { IfOk result (λ v. v ≡ texts.now) }
{
    let mut found = Vec::new(alloc);
    for text in texts {
        found.push(copied_text(alloc, text)?)?;
    }
    Ok(Items::of(found))
}

/// An equal project.
pub(crate) fn copied(alloc: Global, p: &Project) -> Result<Project, OutOfMemory>
    ensures { IfOk result (λ q. q ≡ p.now) }
{
    let signals = copied_signals(alloc, p.signals.as_slice())?;
    let marks = copied_texts(alloc, p.marks.as_slice())?;
    Ok(Project {
        signals,
        clock: p.clock,
        hse_hz: p.hse_hz,
        marks,
    })
}
