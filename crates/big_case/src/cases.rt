//! A case.
ghost use Rattle.std.specs.Prelude.{◌≡◌, IfOk};
ghost use Rattle.big_case.specs.Case.{needs, project_text, table_text};

use crate::projects::project_text;
use crate::tables::table_text;
use res_base::{Items, OutOfMemory, Text};
use std::alloc::Global;

/// The inputs of a made case.
#[derive(Debug, Drop)]
pub struct Case {
    /// The text of the table.
    pub tables: Vec<u8>,
    /// The text of the project.
    pub project: Vec<u8>,
    /// The signals that are needed besides.
    pub needs: Items<Text>,
}

#[tactic(auto, unfolding(crate::specs::Case::needs))]
fn needs(alloc: Global) -> Result<Items<Text>, OutOfMemory>
    ensures { IfOk result (λ x. x ≡ needs) }
{
    let mut needs = Items::of(Vec::new(alloc));
    needs.push(Text::copy(alloc, "N0")?)?;
    needs.push(Text::copy(alloc, "N1")?)?;
    Ok(needs)
}

/// The case of a number. Its table goes with the number, and all else is the same for each.
pub fn make_case(alloc: Global, number: u64) -> Result<Case, OutOfMemory>
    ensures tables { IfOk result (λ c. c.tables.items ≡ table_text number) }
    ensures project { IfOk result (λ c. c.project.items ≡ project_text) }
    ensures needs { IfOk result (λ c. c.needs ≡ needs) }
{
    Ok(Case {
        tables: table_text(alloc, number)?,
        project: project_text(alloc)?,
        needs: needs(alloc)?,
    })
}
