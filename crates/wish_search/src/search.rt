//! The searches of all choices, after what is known early.
ghost use Rattle.std.specs.Prelude.{◌≡◌, ◌≢◌, ◌≤◌, Some, IfOk};
ghost use Rattle.box_rules.specs.Judged.{whole_meaning};
ghost use Rattle.choice_rank.specs.Least.{IsAnswer};
ghost use Rattle.least_search.specs.Found.{IsFound};
ghost use Rattle.problem.specs.Meets.{meets};
ghost use Rattle.search_api.specs.Accounts.{Accounted};
ghost use Rattle.wish_search.specs.Early.{IsEarly};

use crate::early::{Asked, Early, ask_early};
use box_judge::PinClockJudge;
use choice_rank::least_of;
use least_search::{Found, found};
use problem::Problem;
use res_base::OutOfMemory;
use res_io::Gate;
use search_api::{Judge, Outcome};
use serial_search::{search, search_below};
use std::alloc::Global;
use std::sync::Wait;
use std::thread::Threads;
use steal_pool::search_by;

/// A problem, with the rank of its least choice, or none where no choice meets every limit.
#[derive(Drop)]
pub struct Ranked {
    pub problem: Problem,
    pub best: Option<u64>,
}

/// The judge of a problem, with its least choice or the proof that there is none.
#[derive(Drop)]
pub struct FoundIn {
    pub judge: PinClockJudge,
    pub found: Found,
}

/// Searches all choices of pins and clocks by 1 to 16 workers at a time, for the account of which a refutation is made.
///
/// Where the least rank is known early, one worker closes the boxes that have a lower one, and cuts all others.
pub fn search_after<R: Threads + Wait + Sync, G: Gate + Sync>(
    rt: &R,
    alloc: Global,
    judge: &PinClockJudge,
    early: Early,
    workers: u32,
    gate: &G,
) -> Result<Outcome, OutOfMemory>
    requires early { IsEarly judge.now.problem early }
    requires workers { (1 ≤ workers) × (workers ≤ 16) }
    ensures accounted { IfOk result (λ o. Accounted (whole_meaning judge.now.problem) o.best o.kept o.closed) }
    ensures answer { IfOk result (λ o. IsAnswer judge.now.problem.shape (meets judge.now.problem) o.best) }
{
    match early {
        Early::Least { rank } => search_below(alloc, judge, Some(rank)),
        Early::Unknown | Early::NoChoice => search_by(rt, alloc, judge, workers, gate),
    }
}

/// The least rank of a problem of which nothing is known, found by so many workers.
fn rank_by<R: Threads + Wait + Sync, G: Gate + Sync>(
    rt: &R,
    alloc: Global,
    p: Problem,
    workers: u32,
    gate: &G,
) -> Result<Ranked, OutOfMemory>
    requires whole { p.first ≢ 0 }
    requires workers { (1 ≤ workers) × (workers ≤ 16) }
    ensures problem { IfOk result (λ r. r.problem ≡ p) }
    ensures answer { IfOk result (λ r. IsAnswer p.shape (meets p) r.best) }
{
    let judge = PinClockJudge::new(alloc, p)?;
    let outcome = search_by(rt, alloc, &judge, workers, gate)?;
    Ok(Ranked {
        problem: judge.into_problem(),
        best: outcome.best,
    })
}

/// The rank of the least choice of a problem of pins and clocks that meets every limit, found by 1 to 16 workers at a time.
pub fn least_rank<R: Threads + Wait + Sync, G: Gate + Sync>(
    rt: &R,
    alloc: Global,
    p: Problem,
    workers: u32,
    gate: &G,
) -> Result<Ranked, OutOfMemory>
    requires whole { p.first ≢ 0 }
    requires workers { (1 ≤ workers) × (workers ≤ 16) }
    ensures problem { IfOk result (λ r. r.problem ≡ p) }
    ensures answer { IfOk result (λ r. IsAnswer p.shape (meets p) r.best) }
{
    let Asked { problem, early } = ask_early(alloc, p)?;
    match early {
        Early::Unknown => rank_by(rt, alloc, problem, workers, gate),
        Early::NoChoice => Ok(Ranked {
            problem,
            best: None,
        }),
        Early::Least { rank } => Ok(Ranked {
            problem,
            best: Some(rank),
        }),
    }
}

/// The least rank of a problem of which nothing is known, found by one worker.
fn rank_by_one(alloc: Global, p: Problem) -> Result<Ranked, OutOfMemory>
    requires { p.first ≢ 0 }
    ensures problem { IfOk result (λ r. r.problem ≡ p) }
    ensures answer { IfOk result (λ r. IsAnswer p.shape (meets p) r.best) }
{
    let judge = PinClockJudge::new(alloc, p)?;
    let outcome = search(alloc, &judge)?;
    Ok(Ranked {
        problem: judge.into_problem(),
        best: outcome.best,
    })
}

/// The same, found by one worker.
pub fn rank_alone(alloc: Global, p: Problem) -> Result<Ranked, OutOfMemory>
    requires { p.first ≢ 0 }
    ensures problem { IfOk result (λ r. r.problem ≡ p) }
    ensures answer { IfOk result (λ r. IsAnswer p.shape (meets p) r.best) }
{
    let Asked { problem, early } = ask_early(alloc, p)?;
    match early {
        Early::Unknown => rank_by_one(alloc, problem),
        Early::NoChoice => Ok(Ranked {
            problem,
            best: None,
        }),
        Early::Least { rank } => Ok(Ranked {
            problem,
            best: Some(rank),
        }),
    }
}

/// The choice whose rank is the least.
fn choice_found(alloc: Global, judge: &PinClockJudge, rank: u64) -> Result<Found, OutOfMemory>
    requires { IsAnswer judge.now.problem.shape (meets judge.now.problem) (Some rank) }
    ensures { IfOk result (IsFound (whole_meaning judge.now.problem)) }
{
    let at = least_of(alloc, judge.shape(), rank)?;
    Ok(Found::Choice { at })
}

/// The least choice, or the proof that there is none, after what is known early.
fn found_after(alloc: Global, judge: &PinClockJudge, early: Early) -> Result<Found, OutOfMemory>
    requires { IsEarly judge.now.problem early }
    ensures { IfOk result (IsFound (whole_meaning judge.now.problem)) }
{
    match early {
        Early::Least { rank } => choice_found(alloc, judge, rank),
        Early::Unknown | Early::NoChoice => found(alloc, judge),
    }
}

/// The least choice of a problem of pins and clocks that meets every limit, or the canonical proof that there is none, found by
/// one worker.
pub fn found_whole(alloc: Global, p: Problem) -> Result<FoundIn, OutOfMemory>
    requires { p.first ≢ 0 }
    ensures judge { IfOk result (λ s. s.judge.problem ≡ p) }
    ensures found { IfOk result (λ s. IsFound (whole_meaning p) s.found) }
{
    let Asked { problem, early } = ask_early(alloc, p)?;
    let judge = PinClockJudge::new(alloc, problem)?;
    let found = found_after(alloc, &judge, early)?;
    Ok(FoundIn { judge, found })
}
