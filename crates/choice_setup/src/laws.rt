//! That the choices of a problem can be set up.
ghost use Rattle.std.specs.Prelude.{◌≡◌, ◌≢◌, ℕ, List, true};
ghost use Rattle.choice_rank.specs.Choices.{IsChoice};
ghost use Rattle.init_gen.specs.Good.{IsAllowed, IsSettable};
ghost use Rattle.res_model.specs.Valid.{IsValid};
ghost use Rattle.problem.specs.declared.parts.ProblemParts.{ProblemParts};
ghost use Rattle.problem.specs.Meets.{meets};
ghost use Rattle.problem.specs.Problem.{IsProblem};
ghost use Rattle.choice_setup.specs.SetUp.{setting_of};

/// The setting of each choice can be set up, and where the choice meets every limit, the table allows the setting.
pub fn choices_are_allowed()
    ensures settable { (p : ProblemParts) (at : List ℕ) → IsProblem p → IsValid p.tables → p.first ≢ 0 → IsChoice p.shape at → IsSettable (setting_of p at) }
    ensures allowed { (p : ProblemParts) (at : List ℕ) → p.first ≢ 0 → meets p at ≡ true → IsAllowed p.tables (setting_of p at) }
{}
