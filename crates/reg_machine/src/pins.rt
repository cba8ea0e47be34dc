//! The fields of the pins.
ghost use Rattle.std.specs.Prelude.{◌≡◌, ◌<◌, ◌&&◌};
ghost use Rattle.reg_machine.specs.Pins.{mode_field, af_kind, af_field, mode_read, mode_at, is_debug, is_function, is_chosen, is_pin_legal, is_place_legal, are_legal_below};

use crate::state::Target;
use crate::step::slot;
use reg_map::GpioReg;
use res_model::Mode;

/// PA13, PA14, PA15, PB3 and PB4, which are for debugging at reset.
pub fn is_debug(place: u8) -> bool
    ensures { result ≡ is_debug place }
{
    place == 13 || place == 14 || place == 15 || place == 19 || place == 20
}

/// The register that has the alternate function of the pin at a place.
pub fn af_kind(place: u8) -> GpioReg
    ensures { result ≡ af_kind place }
{
    if place % 16 < 8 {
        GpioReg::Afrl
    } else {
        GpioReg::Afrh
    }
}

/// The mode that MODER and AFR say.
pub fn mode_at(place: u8, gpio: &[u32; 54]) -> Mode
    requires { place < 144 }
    ensures { result ≡ mode_at place gpio.now }
{
    match mode_field(place, gpio) {
        0 => Mode::Input,
        1 => Mode::Output,
        2 => Mode::Alt(af_field(place, gpio)),
        _ => Mode::Analog,
    }
}

/// Whether each pin in alternate mode has its function, or is one for debugging with AF0.
pub fn are_pins_legal(want: &Target, gpio: &[u32; 54]) -> bool
    ensures { result ≡ are_legal_below 144 want.now.pins gpio.now }
{
    let mut legal = true;
    for place in 0..144 {
        let here = is_place_legal(want, gpio, place);
        legal = both(here, legal);
    }
    legal
}

fn both(here: bool, before: bool) -> bool
    ensures { result ≡ (here && before) }
{
    here && before
}

fn is_place_legal(want: &Target, gpio: &[u32; 54], place: u8) -> bool
    requires { place < 144 }
    ensures { result ≡ is_place_legal want.now.pins gpio.now place }
{
    let mode = mode_field(place, gpio);
    let function = af_field(place, gpio);
    let wanted = want.pins[usize::from(place)];
    mode != 2 || is_chosen(wanted, function) || (is_debug(place) && function == 0)
}

fn is_chosen(wanted: Option<Mode>, function: u8) -> bool
    ensures { result ≡ is_chosen wanted function }
{
    match wanted {
        Some(Mode::Alt(chosen)) => function == chosen,
        _ => false,
    }
}

fn mode_field(place: u8, gpio: &[u32; 54]) -> u8
    requires { place < 144 }
    ensures { result ≡ mode_field place gpio.now }
{
    let word = gpio[slot(place / 16, GpioReg::Moder)];
    ((word >> (2 * u32::from(place % 16))) % 4) as u8
}

fn af_field(place: u8, gpio: &[u32; 54]) -> u8
    requires { place < 144 }
    ensures { result ≡ af_field place gpio.now }
{
    let word = gpio[slot(place / 16, af_kind(place))];
    ((word >> (4 * u32::from(place % 8))) % 16) as u8
}
