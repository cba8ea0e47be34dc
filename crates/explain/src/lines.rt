//! Lines of a project's text that hold something fixed.
ghost use Rattle.std.specs.Prelude.{◌≡◌, map, option_copied};
ghost use Rattle.res_model.specs.Placed.{rows_named};
ghost use Rattle.res_model.specs.Signals.{rows_of};
ghost use Rattle.explain.specs.Things.{has_no_rows, lists_pin, pin_line, true_line};

use ioc_text::{Line, pin_number};
use res_model::{PinUse, Signal, TableSignal, Tables};

/// The number of a line that says `true`.
pub(crate) fn true_line(line: Option<&Line>) -> Option<u32>
    ensures { result ≡ true_line (option_copied line.entry) }
{
    match line {
        None => None,
        Some(line) => {
            if line.value.as_slice() == b"true".as_slice() {
                Some(line.number)
            } else {
                None
            }
        }
    }
}

/// Whether a line lists this pin.
fn lists_pin(pin: &[u8], line: &Line) -> bool
    ensures { result ≡ lists_pin pin.now line.now }
{
    pin_number(line.key.as_slice()).is_some() && line.value.as_slice() == pin
}

/// The line that lists a pin.
#[tactic(auto, unfolding(crate::specs::Things::pin_line))]
pub(crate) fn pin_line<'i>(lines: &[&'i Line], pin: &[u8]) -> Option<&'i Line>
    ensures { option_copied result ≡ pin_line (map (λ line. line.now) lines.now) pin.now }
{
    for line in lines {
        if lists_pin(pin, *line) {
            return Some(*line);
        }
    }
    None
}

fn rows_of<'t>(signal: Option<&'t TableSignal>) -> &'t [PinUse]
    ensures { result.now ≡ rows_of (option_copied signal.entry) }
{
    match signal {
        Some(signal) => signal.at.as_slice(),
        None => &[],
    }
}

/// Whether a signal stays where it is, since the table has no rows for it.
#[tactic(auto, unfolding(res_model::specs::Placed::rows_named))]
pub(crate) fn has_no_rows(t: &Tables, signal: &Signal) -> bool
    ensures { result ≡ has_no_rows t.now signal.now }
{
    rows_of(t.signal_named(signal.name.as_str().as_bytes())).len() == 0
}
