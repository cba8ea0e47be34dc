//! What is known of the least choice before all choices are searched.
ghost use Rattle.std.specs.Prelude.{◌≡◌, ◌≢◌, ◌<◌, ◌*◌, ◌^◌, [], Some, IfOk, map, slice_index_or};
ghost use Rattle.wish_search.specs.Early.{IsEarly, early_of};
ghost use Rattle.problem.specs.Wishes.{bus_wish};

use crate::hertz::{lowest, multiples};
use problem::{Problem, a_bus_wish_fixes_hclk};
use res_base::OutOfMemory;
use std::alloc::Global;

/// What is known early of the least choice that meets every limit.
#[derive(Clone, Copy, Debug, PartialEq, Eq)]
pub enum Early {
    /// Nothing: the clock of no bus is wished, or HCLK too.
    Unknown,
    /// No choice meets every limit.
    NoChoice,
    /// The rank of the least choice.
    Least { rank: u64 },
}

/// A problem, with what is known early of it.
#[derive(Drop)]
pub struct Asked {
    pub problem: Problem,
    pub early: Early,
}

/// The answer as it is known early.
fn early_of(best: Option<u64>) -> Early
    ensures { result ≡ early_of best }
{
    match best {
        Some(rank) => Early::Least { rank },
        None => Early::NoChoice,
    }
}

/// The values of a clock variable times a wish.
fn hertz_of(alloc: Global, p: &Problem, wish: u64, variable: usize) -> Result<Vec<u64>, OutOfMemory>
    requires whole { p.now.first ≢ 0 }
    requires wish { bus_wish p.now.facts ≡ Some (wish, variable) }
    ensures { IfOk result (λ v. v.items ≡ map (λ d. wish * d) (slice_index_or p.now.clock variable [])) }
{
    p.parts_agree();
    let dividers = p.parts().clock.as_slice()[variable].as_slice();
    multiples(alloc, wish, dividers)
}

/// What is known early where the clock of a bus is wished.
fn wished(alloc: Global, p: Problem, wish: u64, variable: usize) -> Result<Asked, OutOfMemory>
    requires whole { p.first ≢ 0 }
    requires wish { bus_wish p.facts ≡ Some (wish, variable) }
    ensures problem { IfOk result (λ a. a.problem ≡ p) }
    ensures early { IfOk result (λ a. IsEarly p a.early) }
{
    p.parts_agree();
    a_bus_wish_fixes_hclk();
    let hertz = hertz_of(alloc, &p, wish, variable)?;
    let tried = lowest(alloc, p, hertz.as_slice())?;
    Ok(Asked {
        problem: tried.problem,
        early: early_of(tried.best),
    })
}

/// What is known of the least choice of a problem of pins and clocks before all choices are searched.
///
/// A wish for PCLK1 or PCLK2 without one for HCLK leaves wide ranges, so that a search of all choices may go through millions
/// of boxes. But it is a wish for HCLK too, at one of at most sixteen values, and at each of them the search is short.
pub fn ask_early(alloc: Global, p: Problem) -> Result<Asked, OutOfMemory>
    requires { p.first ≢ 0 }
    ensures problem { IfOk result (λ a. a.problem ≡ p) }
    ensures early { IfOk result (λ a. IsEarly p a.early) }
{
    match p.bus_wish() {
        Some((wish, variable)) => wished(alloc, p, wish, variable),
        None => Ok(Asked {
            problem: p,
            early: Early::Unknown,
        }),
    }
}
