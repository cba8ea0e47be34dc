//! Events on a core. A row is a function that answers whether all is as expected, and tests hold rows alone.
ghost use Rattle.std.specs.Prelude.{◌≤◌, IfOk};
ghost use Rattle.search_core.specs.Fits.{Fits};

use crate::judge::shared_pin;
use res_base::{Items, OutOfMemory, VarSet};
use search_api::{Cause, Class, Closed, Judge, Reason};
use search_core::{Core, Event};
use std::alloc::Global;

/// What is seen of a core. Tests hold this and no core, since each of their early returns would have to drop it.
#[derive(Clone, Copy, Debug, PartialEq, Eq)]
struct Seen {
    /// how many of the events were possible, up to the first that was not
    possible: usize,
    closed: [Option<Closed>; 4],
    kept: [Option<u64>; 2],
    word: Option<u64>,
    /// the paths in the hands of workers 0 and 1
    hands: [Option<u128>; 2],
    /// the deque of worker 0
    deque: [Option<u128>; 2],
}

/// A new core, which fits the judge.
fn new_core<J: Judge>(alloc: Global, judge: &J, workers: u32) -> Result<Core, OutOfMemory>
    requires some { 1 ≤ workers }
    requires few { workers ≤ 16 }
    ensures { IfOk result (λ c. Fits (J.meaning judge.now) c) }
{
    Core::new(alloc, workers)
}

/// How many of these events are possible, one after the other, up to the first that is not.
fn happen<J: Judge>(
    core: &mut Core,
    judge: &J,
    scratch: &mut J::Scratch,
    events: &[Event],
) -> Result<usize, OutOfMemory>
    requires core { Fits (J.meaning judge.now) core.old }
    requires scratch { J.fits judge.now scratch.old }
{
    for k in 0..events.len() {
        if !core.step(judge, scratch, events[k])? {
            return Ok(k);
        }
    }
    Ok(events.len())
}

fn at<T: Copy>(items: &Items<T>, k: usize) -> Option<T> {
    items.as_slice().get(k).copied()
}

fn hand_at(core: &Core, w: usize) -> Option<u128> {
    at(&core.hands, w)?.path
}

fn path_at(core: &Core, k: usize) -> Option<u128> {
    at(core.deques.as_slice().first()?, k)
}

fn look_at(core: &Core, possible: usize) -> Seen {
    Seen {
        possible,
        closed: [
            at(&core.closed, 0),
            at(&core.closed, 1),
            at(&core.closed, 2),
            at(&core.closed, 3),
        ],
        kept: [at(&core.kept, 0), at(&core.kept, 1)],
        word: core.word,
        hands: [hand_at(core, 0), hand_at(core, 1)],
        deque: [path_at(core, 0), path_at(core, 1)],
    }
}

/// What is seen after these events.
fn after<J: Judge>(
    alloc: Global,
    judge: &J,
    workers: u32,
    events: &[Event],
) -> Result<Seen, OutOfMemory>
    requires some { 1 ≤ workers }
    requires few { workers ≤ 16 }
{
    let mut scratch = judge.scratch(alloc)?;
    let mut core = new_core(alloc, judge, workers)?;
    let possible = happen(&mut core, judge, &mut scratch, events)?;
    Ok(look_at(&core, possible))
}

/// Whether this is seen after these events on a core of two signals that compete for a pin.
fn gives(alloc: Global, workers: u32, events: &[Event], expected: &Seen) -> bool
    requires some { 1 ≤ workers }
    requires few { workers ≤ 16 }
{
    let Some(judge) = shared_pin(alloc) else {
        return false;
    };
    match after(alloc, &judge, workers, events) {
        Ok(seen) => seen == *expected,
        Err(_) => false,
    }
}

fn closed(worker: u32, path: u128, cause: Cause) -> Option<Closed> {
    Some(Closed {
        worker,
        path,
        cause,
    })
}

/// Both signals want the one pin.
pub(crate) fn both_want_it() -> Reason {
    let mut vars = VarSet::new();
    vars.put(0);
    vars.put(1);
    Reason::Hall {
        class: Class::Pins,
        vars,
    }
}

fn one_worker_cuts_by_the_rank_that_another_offered(alloc: Global) -> bool {
    let events = [
        Event::Pop { worker: 0 },
        Event::Split { worker: 0 },
        Event::Split { worker: 0 },
        Event::CloseBad { worker: 0 },
        Event::Steal { worker: 1, from: 0 },
        Event::See { worker: 1 },
        Event::Pop { worker: 0 },
        Event::Keep { worker: 0 },
        Event::Offer { worker: 0 },
        Event::See { worker: 1 },
        Event::Cut { worker: 1 },
        // nothing is left
        Event::Pop { worker: 0 },
    ];
    let expected = Seen {
        possible: 11,
        closed: [
            closed(0, 4, Cause::Bad(both_want_it())),
            closed(0, 5, Cause::Leaf { rank: 1 }),
            closed(1, 3, Cause::Cut { rank: 1 }),
            None,
        ],
        kept: [Some(1), None],
        word: Some(1),
        hands: [None, None],
        deque: [None, None],
    };
    gives(alloc, 2, &events, &expected)
}

/// Path 1 is in the deque of worker 0, and all else is empty.
const NEW: Seen = Seen {
    possible: 0,
    closed: [None; 4],
    kept: [None; 2],
    word: None,
    hands: [None; 2],
    deque: [Some(1), None],
};

fn a_worker_cannot_steal_from_itself(alloc: Global) -> bool {
    let events = [Event::Steal { worker: 0, from: 0 }];
    gives(alloc, 1, &events, &NEW)
}

fn what_is_not_owed_cannot_be_offered(alloc: Global) -> bool {
    let events = [Event::Offer { worker: 0 }];
    gives(alloc, 1, &events, &NEW)
}

fn a_worker_takes_what_it_put_last(alloc: Global) -> bool {
    let events = [
        Event::Pop { worker: 0 },
        Event::Split { worker: 0 },
        Event::Split { worker: 0 },
        Event::CloseBad { worker: 0 },
        Event::Pop { worker: 0 },
    ];
    let expected = Seen {
        possible: 5,
        closed: [closed(0, 4, Cause::Bad(both_want_it())), None, None, None],
        hands: [Some(5), None],
        deque: [Some(3), None],
        ..NEW
    };
    gives(alloc, 1, &events, &expected)
}

fn a_thief_takes_what_was_put_first(alloc: Global) -> bool {
    let events = [
        Event::Pop { worker: 0 },
        Event::Split { worker: 0 },
        Event::Split { worker: 0 },
        Event::Steal { worker: 1, from: 0 },
    ];
    let expected = Seen {
        possible: 4,
        hands: [Some(4), Some(3)],
        deque: [Some(5), None],
        ..NEW
    };
    gives(alloc, 2, &events, &expected)
}

#[test]
fn events_on_a_core(rt: HostRuntime) {
    assert!(rt; one_worker_cuts_by_the_rank_that_another_offered(rt.alloc()));
    assert!(rt; a_worker_cannot_steal_from_itself(rt.alloc()));
    assert!(rt; what_is_not_owed_cannot_be_offered(rt.alloc()));
    assert!(rt; a_worker_takes_what_it_put_last(rt.alloc()));
    assert!(rt; a_thief_takes_what_was_put_first(rt.alloc()));
}
