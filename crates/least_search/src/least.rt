//! The legal choice of least rank, or why there is none.
ghost use Rattle.std.specs.Prelude.{◌≡◌, None, Some, IfOk};
ghost use Rattle.choice_rank.specs.Least.{IsAnswer, NoneLegal};
ghost use Rattle.search_api.specs.Accounts.{Accounted};
ghost use Rattle.least_search.specs.Found.{IsFound};

use crate::outcomes::Found;
use choice_rank::least_of;
use refutation::canonical;
use res_base::OutOfMemory;
use search_api::{Judge, Outcome};
use serial_search::search;
use std::alloc::Global;

/// The choice of a rank that is the least.
fn choice_found<J: Judge>(alloc: Global, j: &J, rank: u64) -> Result<Found, OutOfMemory>
    requires { IsAnswer (J.meaning j.now).shape (J.meaning j.now).legal (Some rank) }
    ensures { IfOk result (IsFound (J.meaning j.now)) }
{
    let at = least_of(alloc, j.shape(), rank)?;
    Ok(Found::Choice { at })
}

/// The canonical proof of an outcome that found no choice.
fn nothing<J: Judge>(alloc: Global, j: &J, o: &Outcome) -> Result<Found, OutOfMemory>
    requires accounted { Accounted (J.meaning j.now) o.now.best o.now.kept o.now.closed }
    requires none { NoneLegal (J.meaning j.now).shape (J.meaning j.now).legal }
    requires best { o.now.best ≡ None }
    ensures { IfOk result (IsFound (J.meaning j.now)) }
{
    let proof = canonical(alloc, j.shape(), o)?;
    Ok(Found::Nothing { proof })
}

/// The legal choice of least rank, or the canonical proof that no choice is legal.
pub fn found<J: Judge>(alloc: Global, j: &J) -> Result<Found, OutOfMemory>
    ensures { IfOk result (IsFound (J.meaning j.now)) }
{
    let outcome = search(alloc, j)?;
    match outcome.best {
        Some(rank) => choice_found(alloc, j, rank),
        None => nothing(alloc, j, &outcome),
    }
}
