//! Laws of reports before a refutation: functions that do nothing, whose contracts are the laws.
ghost use Rattle.std.specs.Prelude.{◌≡◌, ℕ, ◌++◌, List, Option, Ok, map};
ghost use Rattle.res_base.specs.Lists.{Each};
ghost use Rattle.res_model.specs.Placed.{IsPlaced};
ghost use Rattle.res_model.specs.Valid.{IsValid};
ghost use Rattle.reg_machine.specs.declared.op.Op.{Op};
ghost use Rattle.problem.specs.declared.parts.ProblemParts.{ProblemParts};
ghost use Rattle.box_rules.specs.Judged.{IsWhole, whole_meaning};
ghost use Rattle.refutation.specs.declared.node.Node.{Node};
ghost use Rattle.refutation.specs.Canonical.{IsCanonicalOf};
ghost use Rattle.refutation.specs.Forms.{form_of, FitsBound};
ghost use Rattle.refutation.specs.Reading.{proof_of};
ghost use Rattle.refutation.specs.Spelling.{spelling, ArePassedOver};
ghost use Rattle.report.specs.Reported.{report_text};

/// A report is whole lines, and none of them is the first line of a proof.
pub fn reports_are_passed_over()
    ensures { (p : ProblemParts) (at : List ℕ) (ops : List Op) → IsValid p.tables → Each (IsPlaced p.tables) p.signals → ArePassedOver (report_text p at ops) }
{}

/// The canonical proof of a whole problem is read again behind a report: the text of both is read as its bound and nodes.
pub fn proofs_behind_reports_are_read()
    ensures { (p : ProblemParts) (at : List ℕ) (ops : List Op) (bound : Option ℕ) (nodes : List Node) → IsWhole p → IsValid p.tables → Each (IsPlaced p.tables) p.signals → FitsBound bound → IsCanonicalOf (whole_meaning p) bound nodes → proof_of (report_text p at ops ++ spelling bound (map form_of nodes)) ≡ Ok (bound, map form_of nodes) }
{}
