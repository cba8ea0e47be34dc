//! Laws of the texts of refutations: functions that do nothing, whose contracts are the laws.
ghost use Rattle.std.specs.Prelude.{◌≡◌, ℕ, ◌++◌, List, Option, Ok, map};
ghost use Rattle.res_base.specs.Lists.{Each};
ghost use Rattle.problem.specs.declared.parts.ProblemParts.{ProblemParts};
ghost use Rattle.box_rules.specs.Judged.{IsWhole, whole_meaning};
ghost use Rattle.refutation.specs.declared.node.Node.{Node};
ghost use Rattle.refutation.specs.Canonical.{IsCanonicalOf};
ghost use Rattle.refutation.specs.Forms.{form_of, FitsBound};
ghost use Rattle.refutation.specs.Lines.{ReasonsHaveLines};
ghost use Rattle.refutation.specs.Reading.{proof_of, IsPassedOver};
ghost use Rattle.refutation.specs.Spelling.{lines_text, spelling};

/// Each reason that the judge of pins and clocks gives has a line in a proof's text.
pub fn reasons_have_lines()
    ensures { (p : ProblemParts) → IsWhole p → ReasonsHaveLines (whole_meaning p) }
{}

/// The text of the canonical proof of a whole problem is read as its bound and its nodes, also behind lines that are passed over.
pub fn proofs_are_read()
    ensures { (p : ProblemParts) (bound : Option ℕ) (nodes : List Node) (before : List (List ℕ)) → IsWhole p → FitsBound bound → IsCanonicalOf (whole_meaning p) bound nodes → Each IsPassedOver before → proof_of (lines_text before ++ spelling bound (map form_of nodes)) ≡ Ok (bound, map form_of nodes) }
{}
