//! The project.
ghost use Rattle.std.specs.Prelude.{◌≡◌, ◌<◌, ◌++◌, IfOk, OnOk};
ghost use Rattle.big_case.specs.Case.{clock_pins, joined, part, pin_line, placed, placed_output, placed_signal, project_text, signal_line};

use crate::pins::{put_pin, signal_name};
use crate::rest::clock_keys;
use res_base::{OutOfMemory, put_dec};
use std::alloc::Global;

#[tactic(auto, unfolding(crate::specs::Case::part))]
fn part() -> &'static [u8]
    ensures { result.now ≡ part }
{
    br"Mcu.Name=CASE
Mcu.Package=CASE
"
}

/// The pin that the project has at a place of its list.
#[tactic(auto, unfolding(crate::specs::Case::pin_line))]
fn put_pin_line(alloc: Global, out: &mut Vec<u8>, place: u64, k: u64) -> Result<(), OutOfMemory>
    requires { k < 112 }
    ensures { OnOk result (out.new.items ≡ out.old.items ++ pin_line place k) }
{
    out.extend_from_slice(b"Mcu.Pin")?;
    put_dec(alloc, out, place)?;
    out.push(b'=')?;
    put_pin(alloc, out, k)?;
    out.push(b'\n')?;
    Ok(())
}

#[tactic(auto, unfolding(crate::specs::Case::signal_line))]
fn put_signal_line(alloc: Global, out: &mut Vec<u8>, k: u64, name: &[u8]) -> Result<(), OutOfMemory>
    requires { k < 112 }
    ensures { OnOk result (out.new.items ≡ out.old.items ++ signal_line k name.now) }
{
    put_pin(alloc, out, k)?;
    out.extend_from_slice(b".Signal=")?;
    out.extend_from_slice(name)?;
    out.push(b'\n')?;
    Ok(())
}

/// A signal on a pin that stands at a place of the list.
#[tactic(auto, unfolding(crate::specs::Case::placed))]
fn put_placed(
    alloc: Global,
    out: &mut Vec<u8>,
    place: u64,
    k: u64,
    name: &[u8],
) -> Result<(), OutOfMemory>
    requires { k < 112 }
    ensures { OnOk result (out.new.items ≡ out.old.items ++ placed place k name.now) }
{
    put_pin_line(alloc, out, place, k)?;
    put_signal_line(alloc, out, k, name)?;
    Ok(())
}

#[tactic(auto, unfolding(crate::specs::Case::placed_signal))]
fn put_placed_signal(alloc: Global, out: &mut Vec<u8>, j: u64) -> Result<(), OutOfMemory>
    requires { j < 13 }
    ensures { OnOk result (out.new.items ≡ out.old.items ++ placed_signal j) }
{
    let name = signal_name(alloc, j)?;
    put_placed(alloc, out, j, j, name.as_slice())?;
    Ok(())
}

/// The signals that may move, on port A.
fn put_placed_signals(alloc: Global, out: &mut Vec<u8>) -> Result<(), OutOfMemory>
    ensures { OnOk result (out.new.items ≡ out.old.items ++ joined 13 placed_signal) }
{
    for j in 0..13 {
        put_placed_signal(alloc, out, j)?;
    }
    Ok(())
}

#[tactic(auto, unfolding(crate::specs::Case::clock_pins))]
fn clock_pins() -> &'static [u8]
    ensures { result.now ≡ clock_pins }
{
    br"Mcu.Pin13=PH0
PH0.Signal=OSC_IN
Mcu.Pin14=PH1
PH1.Signal=OSC_OUT
Mcu.Pin15=PI0
PI0.Signal=CASE_USB
"
}

#[tactic(auto, unfolding(crate::specs::Case::placed_output))]
fn put_placed_output(alloc: Global, out: &mut Vec<u8>, i: u64) -> Result<(), OutOfMemory>
    requires { i < 80 }
    ensures { OnOk result (out.new.items ≡ out.old.items ++ placed_output i) }
{
    put_placed(alloc, out, 16 + i, 32 + i, b"OUT")?;
    Ok(())
}

/// Outputs on all pins of the ports C to G.
fn put_placed_outputs(alloc: Global, out: &mut Vec<u8>) -> Result<(), OutOfMemory>
    ensures { OnOk result (out.new.items ≡ out.old.items ++ joined 80 placed_output) }
{
    for i in 0..80 {
        put_placed_output(alloc, out, i)?;
    }
    Ok(())
}

/// The text of the project.
#[tactic(auto, unfolding(crate::specs::Case::project_text))]
pub(crate) fn project_text(alloc: Global) -> Result<Vec<u8>, OutOfMemory>
    ensures { IfOk result (λ x. x.items ≡ project_text) }
{
    let mut out = Vec::from_slice(alloc, part())?;
    put_placed_signals(alloc, &mut out)?;
    out.extend_from_slice(clock_pins())?;
    put_placed_outputs(alloc, &mut out)?;
    out.extend_from_slice(clock_keys())?;
    Ok(out)
}
