//! The fields of PWR_CR, and the power step that they say.
ghost use Rattle.std.specs.Prelude.{◌≡◌, ◌≤◌, true};
ghost use Rattle.reg_machine.specs.Power.{vos_mask, pwr_others, scale_of, step_from, power_of};

use crate::state::State;
use reg_map::{Field, field_get};

/// VOS of parts with two scales, and of parts with three.
const VOS1: Field = Field { low: 14, width: 1 };

const VOS2: Field = Field { low: 14, width: 2 };

/// The bits of VOS, by the table's version.
pub fn vos_mask(version: u8) -> u32
    ensures { result ≡ vos_mask version }
{
    if version == 1 { 0x4000 } else { 0xC000 }
}

/// The bits of PWR_CR that are none of its fields.
pub fn pwr_others(version: u8) -> u32
    ensures { result ≡ pwr_others version }
{
    if version == 1 {
        0xFFFF_BFFF
    } else {
        0xFFFC_3FFF
    }
}

/// The scale that VOS names; 4 where it names none.
pub fn scale_of(version: u8, word: u32) -> u8
    ensures is { result ≡ scale_of version word }
    ensures small { result ≤ 4 }
{
    if version == 1 {
        2 - field_get(word, VOS1) as u8
    } else {
        4 - field_get(word, VOS2) as u8
    }
}

/// The power step of a scale, with over-drive or without.
fn step_from(over: bool, scale: u8) -> Option<u8>
    ensures { result ≡ step_from over scale }
{
    if over {
        step_with_over(scale)
    } else if scale <= 3 {
        Some(scale)
    } else {
        None
    }
}

fn step_with_over(scale: u8) -> Option<u8>
    ensures { result ≡ step_from true scale }
{
    match scale {
        1 => Some(4),
        2 => Some(5),
        _ => None,
    }
}

/// The power step in effect.
pub fn power_of(s: &State) -> Option<u8>
    ensures { result ≡ power_of s.now }
{
    step_from(s.over_switched, scale_of(s.version, s.pwr_cr))
}
