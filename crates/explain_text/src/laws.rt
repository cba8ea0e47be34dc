//! What the figures and the name of a limit stand for.
ghost use Rattle.std.specs.Prelude.{◌≡◌};
ghost use Rattle.box_rules.specs.Judged.{IsWhole, clock_box};
ghost use Rattle.box_spans.specs.Every.{every};
ghost use Rattle.box_split.specs.Boxes.{whole};
ghost use Rattle.clock_limits.specs.Ranges.{allowed};
ghost use Rattle.explain_text.specs.LimitNames.{limit_named};
ghost use Rattle.problem.specs.declared.parts.ProblemParts.{ProblemParts};
ghost use Rattle.res_model.specs.LimitNumbers.{limit_number};
ghost use Rattle.res_model.specs.declared.limit.Limit.{Limit};

/// The box of all choices of a whole problem allows every value of the clock variables. So the ranges in the figures of a
/// limit are those by which the limit is judged at the root.
pub fn all_choices_have_every_value()
    ensures { (p : ProblemParts) → IsWhole p → allowed p.clock (clock_box (whole p.shape)) ≡ every p.clock }
{}

/// The name that a number has in a line is that of the limit with this number.
pub fn numbers_have_names()
    ensures { (limit : Limit) → limit_named (limit_number limit) ≡ limit }
{}
