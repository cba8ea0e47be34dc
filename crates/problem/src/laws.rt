//! What it means that a choice meets the limits.
ghost use Rattle.std.specs.Prelude.{◌≡◌, ◌≢◌, ◌↔◌, ℕ, ◌*◌, List, None, Some, Option, true};
ghost use Rattle.choice_rank.specs.Choices.{IsChoice};
ghost use Rattle.res_model.specs.Clock.{IsInRange};
ghost use Rattle.problem.specs.declared.parts.ProblemParts.{ProblemParts};
ghost use Rattle.problem.specs.ClockValues.{clock_at, clock_value};
ghost use Rattle.problem.specs.Meets.{meets, Meets};
ghost use Rattle.problem.specs.Problem.{IsProblem};
ghost use Rattle.problem.specs.Wishes.{bus_wish, with_hclk};

/// A choice meets the limits where the sentence of each of them holds: no two signals are at one pin and no two
/// interrupts at pins of one number, and in a whole problem the clocks meet each of theirs.
pub fn meets_is_every_limit()
    ensures { (p : ProblemParts) (at : List ℕ) → (meets p at ≡ true) ↔ Meets p at }
{}

/// A wish forbids choices and allows none: what meets the limits under a wish for HCLK meets them without it.
pub fn a_wish_allows_nothing()
    ensures { (p : ProblemParts) (hclk : Option ℕ) (at : List ℕ) → p.facts.hclk ≡ None → meets (with_hclk hclk p) at ≡ true → meets p at ≡ true }
{}

/// A wish for the clock of a bus is one for HCLK: what meets it has HCLK at the wish times the divider that it chooses.
pub fn a_bus_wish_fixes_hclk()
    ensures { (p : ProblemParts) (wish variable : ℕ) (at : List ℕ) → bus_wish p.facts ≡ Some (wish, variable) → meets p at ≡ true
        → meets (with_hclk (Some (wish * clock_value p.clock at variable)) p) at ≡ true }
{}

/// The clocks that a choice makes are within the widest ranges.
pub fn clocks_are_in_range()
    ensures { (p : ProblemParts) (at : List ℕ) → IsProblem p → p.first ≢ 0 → IsChoice p.shape at → IsInRange (clock_at p.clock at) }
{}
