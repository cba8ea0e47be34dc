//! The text of a refutation.
ghost use Rattle.std.specs.Prelude.{IfOk};
ghost use Rattle.search_api.specs.Accounts.{Accounted};
ghost use Rattle.solver.specs.Spelled.{IsSpelled};

use refutation::{canonical, write_proof};
use res_base::OutOfMemory;
use search_api::{Judge, Outcome};
use std::alloc::Global;

/// The text of the canonical proof of an accounted outcome.
pub(crate) fn refutation_text<J: Judge>(
    alloc: Global,
    j: &J,
    o: &Outcome,
) -> Result<Vec<u8>, OutOfMemory>
    requires { Accounted (J.meaning j.now) o.now.best o.now.kept o.now.closed }
    ensures { IfOk result (λ x. IsSpelled (J.meaning j.now) o.now.best x.items) }
{
    let proof = canonical(alloc, j.shape(), o)?;
    let text = write_proof(alloc, &proof)?;
    Ok(text)
}
