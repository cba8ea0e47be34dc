//! The search by several workers, and its outcome.
ghost use Rattle.std.specs.Prelude.{◌≡◌, ℕ, ◌≤◌, None, [], ◌++◌, IfOk, OnOk};
ghost use Rattle.res_base.specs.Lists.{Each};
ghost use Rattle.best_word.specs.declared.part.Part.TheVariants.{First};
ghost use Rattle.best_word.specs.Handles.{IsSeatOf, best_view, judge_of};
ghost use Rattle.best_word.specs.Word.{newcomer};
ghost use Rattle.choice_rank.specs.Least.{IsAnswer};
ghost use Rattle.search_api.specs.Meaning.{Meaning};
ghost use Rattle.search_api.specs.Accounts.{Accounted};
ghost use Rattle.steal_worker.specs.Walks.{leaf_rank, leaf_ranks};
ghost use Rattle.steal_pool.specs.Crews.{IsGathered};
ghost use Rattle.steal_pool.specs.Joined.{IsWhole};
ghost use Rattle.steal_pool.specs.Known.{Knows};

use crate::back::close_all;
use crate::crew::crew;
use crate::gather::{Gathered, gather, put_all};
use crate::rest::close_rest;
use crate::shift::run_all;
use best_word::{BestSeat, BestWord};
use res_base::{Items, OutOfMemory};
use res_io::Gate;
use search_api::{Cause, Closed, Judge, Outcome};
use std::alloc::Global;
use std::sync::Wait;
use std::thread::Threads;

/// Searches the boxes of a judge's shape by 1 to 16 workers at a time.
///
/// Each worker has its own thread where one can be made, else the others do its work. Word and seat are new, made
/// with the judge. Only want of memory makes it fail, for whichever worker: then all of them end. The boxes stand in
/// the order in which each worker closed them; the number of workers stands for the caller, which closes what they left.
pub fn pool<R: Threads + Wait + Sync, J: Judge + Sync, G: Gate + Sync>(
    rt: &R,
    alloc: Global,
    j: &J,
    workers: u32,
    gate: &G,
    word: &BestWord<J>,
    seat: &mut BestSeat<J>,
) -> Result<Outcome, OutOfMemory>
    requires workers { (1 ≤ workers) × (workers ≤ 16) }
    requires word { judge_of word.now ≡ j.now }
    requires seat { IsSeatOf word.now seat.old × (best_view seat.old ≡ newcomer First) }
    ensures accounted { IfOk result (λ o. Accounted (J.meaning j.now) o.best o.kept o.closed) }
    ensures workers { IfOk result (λ o. Each (λ e. e.worker ≤ workers) o.closed) }
    ensures answer { IfOk result (λ o. IsAnswer (J.meaning j.now).shape (J.meaning j.now).legal o.best) }
    ensures seat { IsSeatOf word.now seat.new }
    ensures knows { IfOk result (λ o. Knows o.kept o.closed (best_view seat.new)) }
{
    let mut shifts = crew(alloc, j, word, seat, workers)?;
    run_all(rt, j, gate, word, shifts.as_mut_slice());
    let gathered = gather(alloc, word, seat, shifts)?;
    complete(rt, alloc, j, workers, gate, word, seat, gathered)
}

/// Closes what is left in the deques, and answers what all workers and the caller closed.
fn complete<R: Wait, J: Judge, G: Gate>(
    rt: &R,
    alloc: Global,
    j: &J,
    workers: u32,
    gate: &G,
    word: &BestWord<J>,
    seat: &mut BestSeat<J>,
    gathered: Gathered,
) -> Result<Outcome, OutOfMemory>
    requires workers { 1 ≤ workers }
    requires word { judge_of word.now ≡ j.now }
    requires seat { IsSeatOf word.now seat.old }
    requires gathered { IsGathered (J.meaning j.now) workers (best_view seat.old) gathered }
    ensures accounted { IfOk result (λ o. Accounted (J.meaning j.now) o.best o.kept o.closed) }
    ensures workers { IfOk result (λ o. Each (λ e. e.worker ≤ workers) o.closed) }
    ensures answer { IfOk result (λ o. IsAnswer (J.meaning j.now).shape (J.meaning j.now).legal o.best) }
    ensures seat { IsSeatOf word.now seat.new }
    ensures knows { IfOk result (λ o. Knows o.kept o.closed (best_view seat.new)) }
{
    let Gathered {
        owners,
        rows,
        mut closed,
    } = gathered;
    let mut left = Vec::new(alloc);
    close_all(rt, alloc, owners, rows, &mut left)?;
    let more = close_rest(rt, alloc, j, gate, word, seat, workers, left)?;
    put_all(&mut closed, more)?;
    outcome_of(alloc, word, seat, closed)
}

/// The outcome of all closed boxes. The best rank is what the word holds at last.
fn outcome_of<J: Judge>(
    alloc: Global,
    word: &BestWord<J>,
    seat: &mut BestSeat<J>,
    closed: Items<Closed>,
) -> Result<Outcome, OutOfMemory>
    requires { IsSeatOf word.now seat.old }
    ensures seat { IsSeatOf word.now seat.new }
    ensures whole { IfOk result (λ o. (o.closed ≡ closed) × ((m : Meaning) (n : ℕ) → IsWhole m n (best_view seat.old) closed → Accounted m o.best o.kept o.closed × Knows o.kept o.closed (best_view seat.new))) }
{
    let best = word.see(seat);
    let kept = ranks_of(alloc, best, closed.as_slice())?;
    Ok(Outcome { best, kept, closed })
}

/// The ranks of the leaves, in order. Where there is no best rank there is no leaf, and no box is looked at.
fn ranks_of(alloc: Global, best: Option<u64>, closed: &[Closed]) -> Result<Items<u64>, OutOfMemory>
    ensures { IfOk result (λ kept. (best ≡ None → leaf_ranks closed.now ≡ []) → kept ≡ leaf_ranks closed.now) }
{
    match best {
        Some(_) => kept_of(alloc, closed),
        None => Ok(Items::of(Vec::new(alloc))),
    }
}

/// The ranks of the leaves, in order.
fn kept_of(alloc: Global, closed: &[Closed]) -> Result<Items<u64>, OutOfMemory>
    ensures { IfOk result (λ kept. kept ≡ leaf_ranks closed.now) }
{
    let mut kept = Items::of(Vec::new(alloc));
    for entry in closed {
        keep(&mut kept, entry)?;
    }
    Ok(kept)
}

/// Adds the rank of a leaf.
fn keep(kept: &mut Items<u64>, entry: &Closed) -> Result<(), OutOfMemory>
    ensures { OnOk result (kept.new ≡ kept.old ++ leaf_rank entry.now.cause) }
{
    match entry.cause {
        Cause::Bad(_) => Ok(()),
        Cause::Cut { .. } => Ok(()),
        Cause::Leaf { rank } => kept.push(rank),
    }
}
