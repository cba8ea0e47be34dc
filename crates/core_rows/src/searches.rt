//! Searches by several workers. Tests hold what a row answers, and no outcome.
ghost use Rattle.std.specs.Prelude.{◌≤◌};

use crate::events::both_want_it;
use crate::judge::shared_pin;
use best_word::BestWord;
use box_judge::PinJudge;
use res_base::OutOfMemory;
use res_io::NoGate;
use search_api::{Cause, Closed, Outcome};
use std::alloc::Global;
use std::sync::Wait;
use std::thread::Threads;
use steal_pool::pool;

/// The outcome of a search by so many workers, and what the word holds at last.
fn found<R: Threads + Wait + Sync>(
    rt: &R,
    alloc: Global,
    judge: &PinJudge,
    workers: u32,
) -> Result<(Outcome, Option<u64>), OutOfMemory>
    requires { (1 ≤ workers) × (workers ≤ 16) }
{
    let (word, mut seat) = BestWord::new(alloc, judge)?;
    let outcome = pool(rt, alloc, judge, workers, &NoGate, &word, &mut seat)?;
    Ok((outcome, word.close(seat)))
}

/// The same over two signals that compete for a pin.
fn searched<R: Threads + Wait + Sync>(
    rt: &R,
    alloc: Global,
    workers: u32,
) -> Option<(Outcome, Option<u64>)>
    requires { (1 ≤ workers) × (workers ≤ 16) }
{
    let judge = shared_pin(alloc)?;
    found(rt, alloc, &judge, workers).ok()
}

fn closed(path: u128, cause: Cause) -> Closed {
    Closed {
        worker: 0,
        path,
        cause,
    }
}

/// Whether one worker closed these boxes in this order.
fn closes_lower_halves_first(outcome: &Outcome) -> bool {
    let expected = [
        closed(4, Cause::Bad(both_want_it())),
        closed(5, Cause::Leaf { rank: 1 }),
        closed(3, Cause::Cut { rank: 1 }),
    ];
    outcome.closed.as_slice() == expected.as_slice()
}

fn one_worker_closes_lower_halves_first<R: Threads + Wait + Sync>(rt: &R, alloc: Global) -> bool {
    match searched(rt, alloc, 1) {
        Some((outcome, least)) => {
            closes_lower_halves_first(&outcome)
                && outcome.kept.as_slice() == [1].as_slice()
                && outcome.best == Some(1)
                && least == Some(1)
        }
        None => false,
    }
}

/// Whether so many workers find rank 1, and the word holds it at last.
fn find_the_least_rank<R: Threads + Wait + Sync>(rt: &R, alloc: Global, workers: u32) -> bool
    requires { (1 ≤ workers) × (workers ≤ 16) }
{
    match searched(rt, alloc, workers) {
        Some((outcome, least)) => outcome.best == Some(1) && least == Some(1),
        None => false,
    }
}

#[test]
fn searches_by_several_workers(rt: HostRuntime) {
    assert!(rt; one_worker_closes_lower_halves_first(&rt, rt.alloc()));
    assert!(rt; find_the_least_rank(&rt, rt.alloc(), 2));
    assert!(rt; find_the_least_rank(&rt, rt.alloc(), 16));
}
