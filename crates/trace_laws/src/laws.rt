//! Functions that do nothing, whose contracts are the laws.
ghost use Rattle.std.specs.Prelude.{◌≡◌, ℕ, List, true};
ghost use Rattle.res_base.specs.Lists.{Each};
ghost use Rattle.choice_rank.specs.Choices.{IsChoice};
ghost use Rattle.res_model.specs.Valid.{IsValid};
ghost use Rattle.res_model.specs.declared.opts.Opts.{Opts};
ghost use Rattle.res_model.specs.declared.project.Project.{Project};
ghost use Rattle.res_model.specs.declared.table.TableParts.{TableParts};
ghost use Rattle.reg_machine.specs.declared.op.Answer.{Answer};
ghost use Rattle.reg_machine.specs.declared.op.Timeout.{Timeout};
ghost use Rattle.init_gen.specs.Writes.{writes_of};
ghost use Rattle.problem.specs.Meets.{meets};
ghost use Rattle.problem.specs.Problem.{IsProblem};
ghost use Rattle.choice_setup.specs.SetUp.{setting_of};
ghost use Rattle.c_print.specs.Text as c_text;
ghost use Rattle.home_target.specs.Homes.{home_target};
ghost use Rattle.reg_trace.specs.Clean.{IsClean};
ghost use Rattle.reg_trace.specs.Lines.{timeout_name};
ghost use Rattle.reg_trace.specs.Trace.{trace_lines};
ghost use Rattle.trace_laws.specs.AtHome.{AreAtHome, whole};

/// Whatever flags come, no line of the trace of a choice's writes says `illegal` or `forbidden`, where the choice meets every limit
/// and each signal makes the use of its home. The target is that of the project's homes. It does not matter which clocks the
/// choice has.
pub fn home_writes_show_no_fault()
    ensures { (t : TableParts) (p : Project) (opts : Opts) (at : List ℕ) (answers : List Answer) → IsProblem (whole t p opts) → IsValid t → IsChoice (whole t p opts).shape at → meets (whole t p opts) at ≡ true → AreAtHome (whole t p opts) at → Each IsClean (trace_lines t (home_target t p opts) (writes_of (setting_of (whole t p opts) at)) answers) }
{}

/// A trace spells a timeout as the C text does.
pub fn timeouts_are_spelled_alike()
    ensures { (name : Timeout) → timeout_name name ≡ c_text.timeout_name name }
{}
