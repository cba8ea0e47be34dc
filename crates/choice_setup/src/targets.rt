//! What the machine is to have behind the accesses of a choice.
ghost use Rattle.std.specs.Prelude.{◌≡◌};
ghost use Rattle.choice_rank.specs.Choices.{IsChoice};
ghost use Rattle.init_gen.specs.Writes.{target_of};
ghost use Rattle.choice_setup.specs.SetUp.{setting_of};

use crate::pins::setups_of;
use init_gen::Setting;
use problem::Problem;
use reg_machine::Target;
use res_model::{ClockChoice, Src};

/// A target asks for facts and pins alone, so HSI as it is stands for any clocks, and a table of version 1 for any: a problem of pins alone has none.
const ANY_CLOCKS: ClockChoice = ClockChoice {
    src: Src::Hsi,
    psrc: Src::Hsi,
    hpre: 1,
    p: 2,
    m: 16,
    n: 192,
    q: 4,
    ppre1: 1,
    ppre2: 1,
    vos: 1,
};

/// The facts of a choice's clocks, and the mode that it wants of each pin, at port times 16 plus number: that of the
/// first signal there.
#[tactic(auto, unfolding(crate::specs::SetUp::setting_of))]
pub fn target(p: &Problem, at: &[u16]) -> Target
    requires { IsChoice p.now.shape at.now }
    ensures { result ≡ target_of (setting_of p.now at.now) }
{
    init_gen::target(&Setting {
        version: 1,
        facts: p.parts().facts,
        clock: ANY_CLOCKS,
        wait: 0,
        prefetch: false,
        pins: setups_of(p, at),
    })
}
