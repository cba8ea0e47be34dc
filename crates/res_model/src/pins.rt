//! The numbers of pins.
ghost use Rattle.std.specs.Prelude.{◌≡◌};
ghost use Rattle.res_model.specs.Placement.{number_of};

use crate::table::TableParts;

/// The number on its port of the pin at this place of the table; 0 past the end.
pub fn number_on_port(t: &TableParts, pin: u8) -> u8
    ensures { result ≡ number_of t.now pin }
{
    match t.pins.as_slice().get(pin as usize) {
        Some(pin) => pin.number,
        None => 0,
    }
}
