//! The least rank at each of some values of HCLK.
ghost use Rattle.std.specs.Prelude.{◌≡◌, ◌≢◌, ◌<◌, ◌*◌, ◌^◌, None, length, map, IfOk};
ghost use Rattle.choice_rank.specs.Least.{IsAnswer};
ghost use Rattle.problem.specs.Meets.{meets};
ghost use Rattle.problem.specs.Wishes.{with_hclk};
ghost use Rattle.wish_search.specs.Lowest.{IsLowestOf, IsTried, lower};

use box_judge::PinClockJudge;
use problem::{Problem, a_wish_allows_nothing};
use res_base::OutOfMemory;
use serial_search::search;
use std::alloc::Global;

/// A problem, and the least rank of its choices that meet every limit at the values of HCLK that were tried.
#[derive(Drop)]
pub(crate) struct Tried {
    pub(crate) problem: Problem,
    pub(crate) best: Option<u64>,
}

/// A wish times each of these dividers, in hertz.
pub(crate) fn multiples(alloc: Global, wish: u64, dividers: &[u16]) -> Result<Vec<u64>, OutOfMemory>
    requires { wish < 2 ^ 48 }
    ensures { IfOk result (λ v. v.items ≡ map (λ d. wish * d) dividers.now) }
{
    let mut hertz = Vec::with_capacity(alloc, dividers.len())?;
    for divider in dividers {
        hertz.push(wish * u64::from(*divider))?;
    }
    Ok(hertz)
}

/// The lower of two ranks, or the only one.
fn lower(one: Option<u64>, other: Option<u64>) -> Option<u64>
    ensures { result ≡ lower one other }
{
    match (one, other) {
        (Some(first), Some(second)) => Some(first.min(second)),
        (Some(_), None) => one,
        (None, _) => other,
    }
}

/// The least rank at one value of HCLK, beside the problem as it was.
fn at_hertz(alloc: Global, p: Problem, hclk: u64) -> Result<Tried, OutOfMemory>
    requires whole { p.first ≢ 0 }
    requires free { p.facts.hclk ≡ None }
    ensures same { IfOk result (λ t. t.problem ≡ p) }
    ensures answer { IfOk result (λ t. IsAnswer p.shape (meets (with_hclk (Some hclk) p)) t.best) }
{
    let judge = PinClockJudge::new(alloc, p.with_hclk(Some(hclk)))?;
    let outcome = search(alloc, &judge)?;
    Ok(Tried {
        problem: judge.into_problem().with_hclk(None),
        best: outcome.best,
    })
}

/// The least rank when one more value of HCLK was tried.
fn next(alloc: Global, before: Tried, hclk: u64) -> Result<Tried, OutOfMemory>
    requires whole { before.problem.first ≢ 0 }
    requires free { before.problem.facts.hclk ≡ None }
    ensures { IfOk result (IsTried hclk before) }
{
    let Tried { problem, best } = before;
    let tried = at_hertz(alloc, problem, hclk)?;
    Ok(Tried {
        problem: tried.problem,
        best: lower(best, tried.best),
    })
}

/// The least rank of the choices that meet every limit at one of these values of HCLK.
pub(crate) fn lowest(alloc: Global, p: Problem, hertz: &[u64]) -> Result<Tried, OutOfMemory>
    requires whole { p.first ≢ 0 }
    requires free { p.facts.hclk ≡ None }
    ensures same { IfOk result (λ t. t.problem ≡ p) }
    ensures lowest { IfOk result (λ t. IsLowestOf p (length hertz.now) hertz.now t.best) }
{
    a_wish_allows_nothing();
    let mut tried = Tried {
        problem: p,
        best: None,
    };
    for k in 0..hertz.len() {
        tried = next(alloc, tried, hertz[k])?;
    }
    Ok(tried)
}
