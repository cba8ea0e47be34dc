//! What is said of a problem whose ranks would not fit.
ghost use Rattle.std.specs.Prelude.{◌++◌, codes, decimal, IfOk};
ghost use Rattle.answers.specs.Said.{Says};
ghost use Rattle.answers.specs.declared.answer.Status.TheVariants as status;

use answers::{Answer, Status, counts};
use res_base::OutOfMemory;
use std::alloc::Global;

/// The answer that names the first variable with which a rank reaches 2^63.
pub fn too_wide(alloc: Global, variable: u16) -> Result<Answer, OutOfMemory>
    ensures { IfOk result (λ a. Says a status.TooWide (codes "too wide: variable " ++ decimal variable)) }
{
    counts(
        alloc,
        Status::TooWide,
        "too wide: variable ",
        u64::from(variable),
    )
}
