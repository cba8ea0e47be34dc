//! The text of a placement.
ghost use Rattle.std.specs.Prelude.{◌≡◌, ◌≤◌, ◌++◌, List, [], ◌∷◌, length, slice_get, string_bytes, IfOk, OnOk};
ghost use Rattle.std.specs.Option.{option_map_or};
ghost use Rattle.report.specs.PinText.{mode_text, state_text, is_home, words_line, pin_line, pin_lines, pin_name, rank_line, count_line, pins_text};

use res_model::{Mode, PinUse, Signal, TableParts};
use std::alloc::{AllocError, Global};

fn mode_of(alloc: Global, mode: Mode) -> Result<String, AllocError>
    ensures { IfOk result (λ x. string_bytes x ≡ mode_text mode) }
{
    match mode {
        Mode::Alt(n) => format!(in alloc; "AF{n}"),
        Mode::Input => String::from_str(alloc, "INPUT"),
        Mode::Output => String::from_str(alloc, "OUTPUT"),
        Mode::Analog => String::from_str(alloc, "ANALOG"),
        Mode::Exti => String::from_str(alloc, "EXTI"),
        Mode::Osc => String::from_str(alloc, "OSC"),
        Mode::Held => String::from_str(alloc, "HELD"),
    }
}

fn state_of(signal: &Signal, at: PinUse) -> &'static str
    ensures { result.now ≡ state_text signal.now at }
{
    if signal.need {
        return "need";
    }
    match signal.home {
        Some(home) if home == at.pin => "kept",
        _ => "moved",
    }
}

fn pin_name(t: &TableParts, pin: u8) -> &str
    ensures { result.now ≡ pin_name t.now pin }
{
    match t.pins.as_slice().get(pin as usize) {
        Some(pin) => pin.name.as_str(),
        None => "",
    }
}

#[tactic(auto, unfolding(crate::specs::PinText::words_line))]
fn words_line(
    alloc: Global,
    pin: &str,
    signal: &str,
    mode: &str,
    state: &str,
) -> Result<String, AllocError>
    ensures { IfOk result (λ x. string_bytes x ≡ words_line pin.now signal.now mode.now state.now) }
{
    let mut line = String::from_str(alloc, pin)?;
    line.push_str(" ")?;
    line.push_str(signal)?;
    line.push_str(" ")?;
    line.push_str(mode)?;
    line.push_str(" ")?;
    line.push_str(state)?;
    line.push_str("\n")?;
    Ok(line)
}

fn pin_line(
    alloc: Global,
    t: &TableParts,
    signal: &Signal,
    at: PinUse,
) -> Result<String, AllocError>
    ensures { IfOk result (λ x. string_bytes x ≡ pin_line t.now signal.now at) }
{
    let pin = pin_name(t, at.pin);
    let mode = mode_of(alloc, at.mode)?;
    let state = state_of(signal, at);
    let line = words_line(alloc, pin, signal.name.as_str(), mode.as_str(), state)?;
    Ok(line)
}

fn put_pin_lines(
    alloc: Global,
    out: &mut Vec<u8>,
    t: &TableParts,
    signals: &[Signal],
    at: &[PinUse],
) -> Result<(), AllocError>
    requires { length at.now ≡ length signals.now }
    ensures { OnOk result (out.new.items ≡ out.old.items ++ pin_lines t.now signals.now at.now) }
{
    for k in 0..signals.len() {
        let line = pin_line(alloc, t, &signals[k], at[k])?;
        out.extend_from_slice(line.as_bytes())?;
    }
    Ok(())
}

#[tactic(auto, unfolding(crate::specs::PinText::rank_line))]
fn rank_line(alloc: Global, rank: u64, cost: u64, choices: u64) -> Result<String, AllocError>
    ensures { IfOk result (λ x. string_bytes x ≡ rank_line rank cost choices) }
{
    let line = format!(in alloc; "rank {rank} cost {cost} of {choices}\n")?;
    Ok(line)
}

#[tactic(auto, unfolding(crate::specs::PinText::count_line))]
fn count_line(alloc: Global, count: usize) -> Result<String, AllocError>
    ensures { IfOk result (λ x. string_bytes x ≡ count_line count) }
{
    format!(in alloc; "pins {count}\n")
}

/// The rank line of a choice.
pub(crate) fn put_rank_line(
    alloc: Global,
    out: &mut Vec<u8>,
    rank: u64,
    cost: u32,
    choices: u64,
) -> Result<(), AllocError>
    ensures { OnOk result (out.new.items ≡ out.old.items ++ rank_line rank cost choices) }
{
    let line = rank_line(alloc, rank, u64::from(cost), choices)?;
    out.extend_from_slice(line.as_bytes())?;
    Ok(())
}

/// A line for each signal with its use, under their number.
pub(crate) fn put_pins_text(
    alloc: Global,
    out: &mut Vec<u8>,
    t: &TableParts,
    signals: &[Signal],
    at: &[PinUse],
) -> Result<(), AllocError>
    requires { length at.now ≡ length signals.now }
    ensures { OnOk result (out.new.items ≡ out.old.items ++ pins_text t.now signals.now at.now) }
{
    let line = count_line(alloc, signals.len())?;
    out.extend_from_slice(line.as_bytes())?;
    put_pin_lines(alloc, out, t, signals, at)
}
