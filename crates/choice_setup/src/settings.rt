//! The setting of a choice.
ghost use Rattle.std.specs.Prelude.{◌≡◌, ◌≢◌, ◌<◌, ◌^◌};
ghost use Rattle.choice_rank.specs.Choices.{IsChoice};
ghost use Rattle.res_model.specs.Clock.{IsInRange, hclk_of, nodes_of};
ghost use Rattle.problem.specs.ClockValues.{clock_at};
ghost use Rattle.choice_setup.specs.SetUp.{wait_states, setting_of};

use crate::pins::setups_of;
use clock_tree::nodes;
use init_gen::Setting;
use power_flash::{least_wait, prefetch};
use problem::{Problem, clocks_are_in_range};
use res_base::Ratio;
use res_model::{ClockChoice, Facts};

#[tactic(auto, unfolding(res_model::specs::Clock::nodes_of))]
fn hclk_of(f: &Facts, c: &ClockChoice) -> Ratio
    requires choice { IsInRange c.now }
    requires hse { f.now.hse_hz < 2 ^ 32 }
    ensures { result ≡ hclk_of f.now c.now }
{
    nodes(f, c).hclk
}

/// The least wait states whose row covers HCLK; none where no row does.
fn wait_states(p: &Problem, c: &ClockChoice) -> u8
    requires { IsInRange c.now }
    ensures { result ≡ wait_states p.now c.now }
{
    p.parts_agree();
    let parts = p.parts();
    let hclk = hclk_of(&parts.facts, c);
    least_wait(&parts.tables, parts.facts.vdd, &hclk).unwrap_or(0)
}

/// The clocks that a choice makes.
fn clock_of(p: &Problem, at: &[u16]) -> ClockChoice
    requires choice { IsChoice p.now.shape at.now }
    requires whole { p.now.first ≢ 0 }
    ensures clock { result ≡ clock_at p.now.clock at.now }
    ensures range { IsInRange result }
{
    p.parts_agree();
    clocks_are_in_range();
    p.clock_of(at)
}

/// The setting of a choice: its clocks under the least wait states that cover HCLK, prefetch where the supply voltage
/// allows it, and at each place what the first signal sets up whose pin is there.
#[tactic(auto, unfolding(crate::specs::SetUp::setting_of))]
pub fn setting_of(p: &Problem, at: &[u16]) -> Setting
    requires choice { IsChoice p.now.shape at.now }
    requires whole { p.now.first ≢ 0 }
    ensures { result ≡ setting_of p.now at.now }
{
    let parts = p.parts();
    let clock = clock_of(p, at);
    Setting {
        version: parts.tables.version(),
        facts: parts.facts,
        clock,
        wait: wait_states(p, &clock),
        prefetch: prefetch(&parts.tables, parts.facts.vdd),
        pins: setups_of(p, at),
    }
}
