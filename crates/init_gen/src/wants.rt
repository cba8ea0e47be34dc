//! What the machine is to have at the end.
ghost use Rattle.std.specs.Prelude.{◌≡◌, map};
ghost use Rattle.init_gen.specs.PinWrites.{wanted};
ghost use Rattle.init_gen.specs.Writes.{target_of};

use crate::pins::wanted;
use crate::setting::{Setting, Setup};
use reg_machine::Target;
use res_model::Mode;

/// The facts of a setting, and the mode that is wanted of each pin.
pub fn target(s: &Setting) -> Target
    ensures { result ≡ target_of s.now }
{
    Target {
        facts: s.facts,
        pins: wanted_of(&s.pins),
    }
}

fn wanted_of(pins: &[Option<Setup>; 144]) -> [Option<Mode>; 144]
    ensures { result ≡ map wanted pins.now }
{
    let mut wants = [None; 144];
    for place in 0..144usize {
        wants[place] = wanted(pins[place]);
    }
    wants
}
