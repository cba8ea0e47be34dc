//! Laws of judges: functions that do nothing, whose contracts are the laws.
ghost use Rattle.std.specs.Prelude.{◌≡◌, ℕ, List, true, drop};
ghost use Rattle.res_base.specs.declared.var_set.VarSet.{VarSet};
ghost use Rattle.box_split.specs.Boxes.{Run, IsBox, LiesIn};
ghost use Rattle.problem.specs.declared.parts.ProblemParts.{ProblemParts};
ghost use Rattle.res_model.specs.Placement.{fits, uses_at};
ghost use Rattle.search_api.specs.declared.verdict.Class.{Class};
ghost use Rattle.search_api.specs.Meaning.{IsLawful};
ghost use Rattle.box_rules.specs.Contest.{hall_refutes};
ghost use Rattle.box_rules.specs.Judged.{IsReady, IsWhole, contest, pin_meaning, whole_meaning};

/// No choice of a box that a Hall set refutes has pins that fit.
pub fn refuting_hall_leaves_none()
    ensures { (p : ProblemParts) → IsReady p → (b : List Run) → IsBox p.shape b → (class : Class) (vars : VarSet) → hall_refutes p.tables class (contest p class b) vars ≡ true
        → (choice : List ℕ) → LiesIn b choice → fits p.tables (uses_at p.uses (drop p.first choice)) ≡ true → ⊥ }
{}

/// What the judge of pins means is lawful.
pub fn pin_verdicts_are_lawful()
    ensures { (p : ProblemParts) → IsReady p → p.first ≡ 0 → IsLawful (pin_meaning p) }
{}

/// What the judge of pins and clocks means is lawful.
pub fn whole_verdicts_are_lawful()
    ensures { (p : ProblemParts) → IsWhole p → IsLawful (whole_meaning p) }
{}
