//! Laws of made cases: functions that do nothing, whose contracts are the laws.
ghost use Rattle.std.specs.Prelude.{◌≡◌, ◌≤◌, ℕ, length, true, Ok};
ghost use Rattle.big_case.specs.Case.{project_text, table_text};
ghost use Rattle.case_rules.specs.CaseProblem.{case_problem};
ghost use Rattle.case_rules.specs.CaseProject.{case_lines, case_project};
ghost use Rattle.case_rules.specs.CaseTable.{case_table};
ghost use Rattle.case_rules.specs.Options.{case_opts};
ghost use Rattle.choice_rank.specs.Choices.{IsNarrow};
ghost use Rattle.ioc_text.specs.Lines.{ioc_of};
ghost use Rattle.ioc_project.specs.Project.{project_of};
ghost use Rattle.mcu_tables.specs.Table.{tables_of};

/// For every number the readers take the texts of the made case, and this is what they read.
pub fn texts_are_read()
    ensures table { (number : ℕ) → tables_of (table_text number) ≡ Ok (case_table number) }
    ensures lines { ioc_of project_text ≡ Ok case_lines }
    ensures project { (number : ℕ) → project_of (case_table number) case_lines case_opts true ≡ Ok case_project }
{}

/// For every number each rank of the made case's problem fits.
pub fn ranks_fit()
    ensures { (number : ℕ) → IsNarrow (case_problem number).shape }
{}

/// The text of the project is no longer than an input may be.
pub fn project_is_short()
    ensures { length project_text ≤ 67108864 }
{}
