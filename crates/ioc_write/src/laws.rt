//! What the definition of a text that is written back rests on.
ghost use Rattle.std.specs.Prelude.{◌≡◌, ◌<◌, ◌^◌, List, ℕ, length, true, Ok, Some};
ghost use Rattle.choice_rank.specs.Choices.{IsChoice};
ghost use Rattle.res_model.specs.Clock.{IsInRange};
ghost use Rattle.res_model.specs.Placement.{fits};
ghost use Rattle.res_model.specs.Valid.{IsValid};
ghost use Rattle.res_model.specs.declared.clock.ClockChoice.{ClockChoice};
ghost use Rattle.res_model.specs.declared.opts.Opts.{Opts};
ghost use Rattle.problem.specs.ClockValues.{clock_at};
ghost use Rattle.problem.specs.Problem.{IsProblem};
ghost use Rattle.problem.specs.declared.parts.ProblemParts.{ProblemParts};
ghost use Rattle.ioc_write.specs.Back.{form_of, value_in};
ghost use Rattle.ioc_write.specs.ReadsBack.{IsOfText, ReadsBack};
ghost use Rattle.ioc_write.specs.WriteBack.{spelled, uses_of, written_back};
ghost use Rattle.ioc_write.specs.declared.variable.Variable.{Variable};

/// What is written of a clock variable is read as its value.
pub fn values_are_read_back()
    ensures { (c : ClockChoice) → IsInRange c → (v : Variable) → form_of v (spelled c v) ≡ Some (value_in c v) }
{}

/// What is written reads back: `read_ioc` and `read_project` of it, under the same options but no needs, refuse nothing, each
/// signal and need is at home at its pin in the choice, and each clock variable that has a key at its value there.
pub fn what_is_written_reads_back()
    ensures { (text : List ℕ) (opts : Opts) (p : ProblemParts) (at out : List ℕ) → IsValid p.tables → IsProblem p → IsChoice p.shape at → fits p.tables (uses_of p at) ≡ true
        → IsInRange (clock_at p.clock at) → length text < 2 ^ 32 → IsOfText text opts p → written_back text p at ≡ Ok out → ReadsBack out opts p at }
{}
