//! An index of the table's pins by port and number, so that a name is found at once.
ghost use Rattle.std.specs.Prelude.{◌≡◌, ◌==◌, ◌+◌, ◌*◌, ◌<◌, length, position, IfOk, IfSome, slice_index_or, None};
ghost use Rattle.res_model.specs.PinNames.{begins_with_digit, pin_number, place, spot, ten_and};
ghost use Rattle.res_model.specs.Valid.{ArePins};
ghost use Rattle.ioc_write.specs.Plans.{AreSpots, is_there, is_named};

use res_base::OutOfMemory;
use res_model::Pin;
use std::alloc::Global;

/// Nine ports of 16 pins each.
const SPOTS: usize = 144;

fn begins_with_digit(text: &[u8]) -> bool
    ensures { result ≡ begins_with_digit text.now }
{
    match text {
        [b'0'..=b'9', ..] => true,
        _ => false,
    }
}

/// 10 to 15, of what stands after the 1.
fn ten_and(text: &[u8]) -> Option<u8>
    ensures { result ≡ ten_and text.now }
{
    match text {
        [digit @ b'0'..=b'5', rest @ ..] if !begins_with_digit(rest) => Some(*digit - 38),
        _ => None,
    }
}

#[tactic(auto, unfolding(res_model::specs::PinNames::pin_number))]
fn pin_number(text: &[u8]) -> Option<u8>
    ensures { result ≡ pin_number text.now }
{
    let [digit @ b'0'..=b'9', rest @ ..] = text else {
        return None;
    };
    if !begins_with_digit(rest) {
        Some(*digit - b'0')
    } else if *digit == b'1' {
        ten_and(rest)
    } else {
        None
    }
}

/// The port and the number of a pin's name.
#[tactic(auto, unfolding(res_model::specs::PinNames::spot))]
fn spot_of(name: &[u8]) -> Option<(u8, u8)>
    ensures { result ≡ spot name.now }
{
    match name {
        [b'P', letter @ b'A'..=b'I', rest @ ..] => match pin_number(rest) {
            Some(number) => Some((*letter - b'A', number)),
            None => None,
        },
        _ => None,
    }
}

fn spot_in(port: u8, number: u8) -> usize
    ensures { result ≡ port * 16 + number }
{
    port as usize * 16 + number as usize
}

/// The place of the pin at a spot.
fn pin_at(pins: &[Pin], spot: usize) -> Option<usize>
    ensures { result ≡ position (is_there spot) pins.now }
{
    pins.iter()
        .position(|pin| spot_in(pin.port, pin.number) == spot)
}

/// The place of the pin at each spot.
pub(crate) fn spots_of(alloc: Global, pins: &[Pin]) -> Result<Vec<Option<usize>>, OutOfMemory>
    ensures { IfOk result (λ v. AreSpots pins.now v.items 144) }
{
    let mut spots = Vec::with_capacity(alloc, SPOTS)?;
    for spot in 0..SPOTS {
        spots.push(pin_at(pins, spot))?;
    }
    Ok(spots)
}

fn is_named(pins: &[Pin], place: usize, name: &[u8]) -> bool
    ensures { result ≡ is_named pins.now place name.now }
{
    match pins.get(place) {
        Some(pin) => pin.name.as_str().as_bytes() == name,
        None => false,
    }
}

/// The place of the pin of this name.
pub(crate) fn place_of(pins: &[Pin], spots: &[Option<usize>], name: &[u8]) -> Option<usize>
    requires pins { ArePins pins.now }
    requires spots { AreSpots pins.now spots.now 144 }
    ensures place { result ≡ place pins.now name.now }
    ensures within { IfSome result (λ k. k < length pins.now) }
{
    let (port, number) = spot_of(name)?;
    let place = spot_at(spots, spot_in(port, number))?;
    if is_named(pins, place, name) {
        Some(place)
    } else {
        None
    }
}

/// What stands at a spot; nothing past the last.
fn spot_at(spots: &[Option<usize>], spot: usize) -> Option<usize>
    ensures { result ≡ slice_index_or spots.now spot None }
{
    match spots.get(spot) {
        Some(place) => *place,
        None => None,
    }
}
