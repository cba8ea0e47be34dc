//! What a choice makes of the variables, and whether it meets the limits.
ghost use Rattle.std.specs.Prelude.{◌≡◌, ◌≢◌, ◌≤◌, ◌<◌, ◌^◌, ℕ, [], Some, length, is_none, take, slice_get, slice_index, slice_index_or};
ghost use Rattle.res_model.specs.Clock.{IsInRange};
ghost use Rattle.res_model.specs.Limits.{broken_limit};
ghost use Rattle.res_model.specs.Placement.{fits, uses_at};
ghost use Rattle.clock_limits.specs.Ranges.{values_at};
ghost use Rattle.problem.specs.ClockValues.{clock_at, clock_value};
ghost use Rattle.res_model.specs.ClockValues.{source_of};
ghost use Rattle.problem.specs.Meets.{meets, places_of, use_of};
ghost use Rattle.problem.specs.Problem.{IsProblem};

use crate::parts::{Problem, ProblemParts};
use clock_limits::broken;
use pin_rules::fits;
use res_base::Items;
use res_model::{ClockChoice, Mode, PinUse, Src};

/// The most signals that a problem has.
const SIGNALS: usize = 160;

fn source_of(value: u16) -> Src
    ensures { result ≡ source_of value }
{
    Src::of(u64::from(value))
}

/// The value of the clock variable of this number at its position.
fn clock_value(values: &[Items<u16>], at: &[u16], k: usize) -> u16
    requires variable { k < length values.now }
    requires placed { k < length at.now }
    requires position { slice_index at.now k < length (values_at values.now k) }
    ensures { result ≡ clock_value values.now at.now k }
{
    let values = values[k].as_slice();
    values[at[k] as usize]
}

/// The same as a byte, where it is one.
fn clock_byte(values: &[Items<u16>], at: &[u16], k: usize) -> u8
    requires variable { k < length values.now }
    requires placed { k < length at.now }
    requires position { slice_index at.now k < length (values_at values.now k) }
    requires small { clock_value values.now at.now k < 2 ^ 8 }
    ensures { result ≡ clock_value values.now at.now k }
{
    clock_value(values, at, k) as u8
}

/// The clocks that positions choose of ten lists of values.
#[tactic(auto, unfolding(crate::specs::ClockValues::clock_at))]
fn clock_at(values: &[Items<u16>], at: &[u16]) -> ClockChoice
    requires ten { length values.now ≡ 10 }
    requires placed { 10 ≤ length at.now }
    requires positions { (k : ℕ) → k < 10 → slice_index at.now k < length (values_at values.now k) }
    requires range { IsInRange (clock_at values.now at.now) }
    requires scale { clock_value values.now at.now 9 < 2 ^ 8 }
    ensures { result ≡ clock_at values.now at.now }
{
    ClockChoice {
        src: source_of(clock_value(values, at, 0)),
        psrc: source_of(clock_value(values, at, 1)),
        hpre: clock_value(values, at, 2),
        p: clock_byte(values, at, 3),
        m: clock_byte(values, at, 4),
        n: clock_value(values, at, 5),
        q: clock_byte(values, at, 6),
        ppre1: clock_byte(values, at, 7),
        ppre2: clock_byte(values, at, 8),
        vos: clock_byte(values, at, 9),
    }
}

/// The value of the signal of this number at its position.
fn use_at(uses: &[Items<PinUse>], signal: usize, position: u16) -> PinUse
    requires signal { signal < length uses.now }
    requires position { position < length (slice_index_or uses.now signal []) }
    ensures { slice_get (slice_index_or uses.now signal []) position ≡ Some result }
{
    uses[signal].as_slice()[position as usize]
}

impl Problem {
    ghost use Rattle.choice_rank.specs.Choices.{IsChoice};

    /// The clocks that a choice makes.
    pub fn clock_of(&self, at: &[u16]) -> ClockChoice
        requires choice { IsChoice self.now.shape at.now }
        requires whole { self.now.first ≢ 0 }
        ensures { result ≡ clock_at self.now.clock at.now }
    {
        self.parts_agree();
        let parts = self.parts();
        parts.tables.keeps_rules();
        clock_at(parts.clock.as_slice(), at)
    }

    /// The use that a choice makes of a pin for the signal of this number.
    pub fn use_of(&self, at: &[u16], signal: u16) -> PinUse
        requires choice { IsChoice self.now.shape at.now }
        requires signal { signal < length self.now.signals }
        ensures { use_of self.now at.now signal ≡ Some result }
    {
        self.parts_agree();
        let parts = self.parts();
        let position = at[parts.first as usize + signal as usize];
        use_at(parts.uses.as_slice(), signal as usize, position)
    }

    /// Whether a choice meets every limit: those on pins, and in a whole problem those on clocks.
    #[tactic(auto, unfolding(crate::specs::Meets::meets))]
    pub fn meets(&self, at: &[u16]) -> bool
        requires { IsChoice self.now.shape at.now }
        ensures { result ≡ meets self.now at.now }
    {
        self.meets_pins(at) && (self.parts().first == 0 || self.meets_clocks(at))
    }

    fn meets_pins(&self, at: &[u16]) -> bool
        requires { IsChoice self.now.shape at.now }
        ensures { result ≡ fits self.now.tables (uses_at self.now.uses (places_of self.now at.now)) }
    {
        self.parts_agree();
        let parts = self.parts();
        let uses = self.uses_at(at);
        fits(&uses[..parts.signals.len()], &parts.tables)
    }

    /// The uses that a choice makes, from the first on.
    fn uses_at(&self, at: &[u16]) -> [PinUse; SIGNALS]
        requires { IsChoice self.now.shape at.now }
        ensures { take (length self.now.signals) result ≡ uses_at self.now.uses (places_of self.now at.now) }
    {
        let mut uses = [PinUse {
            pin: 0,
            mode: Mode::Held,
        }; SIGNALS];
        self.parts_agree();
        for signal in 0..self.parts().signals.len() {
            uses[signal] = self.use_of(at, signal as u16);
        }
        uses
    }

    fn meets_clocks(&self, at: &[u16]) -> bool
        requires choice { IsChoice self.now.shape at.now }
        requires whole { self.now.first ≢ 0 }
        ensures { result ≡ is_none (broken_limit self.now.tables self.now.facts (clock_at self.now.clock at.now)) }
    {
        self.parts_agree();
        let parts = self.parts();
        broken(&parts.tables, &parts.facts, &self.clock_of(at)).is_none()
    }
}
