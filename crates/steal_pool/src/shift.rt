//! The workers at work, each in a thread of its own where one can be made.
ghost use Rattle.std.specs.Prelude.{◌≡◌, length, IfOk, IsOk};
ghost use Rattle.best_word.specs.Handles.{judge_of};
ghost use Rattle.steal_worker.specs.Jobs.{IsReady};
ghost use Rattle.steal_pool.specs.Crews.{Ran, AreSetUp, AreBack};

use best_word::BestWord;
use res_base::OutOfMemory;
use res_io::Gate;
use search_api::Judge;
use std::sync::Wait;
use std::thread;
use std::thread::Threads;
use steal_worker::{Job, Stop, work};

/// There are no more workers.
const MOST: usize = 16;

/// A job, and how the worker that had it ended.
pub(crate) struct Shift<J: Judge> {
    pub(crate) job: Job<J>,
    pub(crate) ended: Result<(), OutOfMemory>,
}

impl<J: Judge> Drop for Shift<J> {
    fn drop(self) {
        let Self { job: _, ended: _ } = self;
    }
}

impl<J: Judge> Shift<J> {
    /// The job, where its worker ended with no box open.
    pub(crate) fn done(self) -> Result<Job<J>, OutOfMemory>
        ensures { IfOk result (λ job. (job ≡ self.job) × IsOk self.ended) }
    {
        let Self { job, ended } = self;
        ended?;
        Ok(job)
    }
}

/// Lets one worker work, and keeps how it ended.
fn run<R: Wait, J: Judge, G: Gate>(
    rt: &R,
    j: &J,
    gate: &G,
    word: &BestWord<J>,
    stop: &Stop,
    shift: &mut Shift<J>,
)
    requires word { judge_of word.now ≡ j.now }
    requires ready { IsReady (J.meaning j.now) (J.fits j.now) word.now shift.old.job }
    ensures { Ran (J.meaning j.now) word.now shift.old shift.new }
{
    shift.ended = work(rt, j, gate, word, stop, &mut shift.job);
}

/// Lets all workers work until no box is open, or until memory runs out for one of them.
///
/// It takes no memory. Where a thread can't be made, the workers before a place wait until those after it have ended,
/// so that the last one is always at work.
pub(crate) fn run_all<R: Threads + Wait + Sync, J: Judge + Sync, G: Gate + Sync>(
    rt: &R,
    j: &J,
    gate: &G,
    word: &BestWord<J>,
    shifts: &mut [Shift<J>],
)
    requires word { judge_of word.now ≡ j.now }
    requires ready { AreSetUp (J.meaning j.now) (J.fits j.now) word.now shifts.old }
    ensures count { length shifts.new ≡ length shifts.old }
    ensures back { AreBack (J.meaning j.now) word.now shifts.new }
{
    let stop = Stop::new();
    let shared = &stop;
    let each = move |_: usize, shift: &mut Shift<J>|
        requires { (judge_of word.now ≡ j.now) × IsReady (J.meaning j.now) (J.fits j.now) word.now shift.now.job }
        ensures { Ran (J.meaning j.entry.now) word.entry.now shift.entry.now shift.exit.now }
    { run(rt, j, gate, word, shared, shift) };
    thread::for_each_mut(rt, shifts, MOST, &each);
}
