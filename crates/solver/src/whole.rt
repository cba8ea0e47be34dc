//! The least choice of pins and clocks.
ghost use Rattle.std.specs.Prelude.{◌≡◌, ◌≢◌, ◌≤◌, ◌<◌, ◌^◌, Bool, None, Some, true, length, IfOk, OnOk};
ghost use Rattle.res_base.specs.Lists.{Each};
ghost use Rattle.choice_rank.specs.Choices.{IsChoice};
ghost use Rattle.choice_rank.specs.Least.{IsAnswer, NoneLegal};
ghost use Rattle.choice_setup.specs.SetUp.{setting_of};
ghost use Rattle.init_gen.specs.Good.{IsSettable};
ghost use Rattle.init_gen.specs.Writes.{writes_of};
ghost use Rattle.reg_machine.specs.Words.{IsOp};
ghost use Rattle.report.specs.Reported.{report_text};
ghost use Rattle.box_rules.specs.Judged.{IsWhole, whole_meaning};
ghost use Rattle.problem.specs.Meets.{meets};
ghost use Rattle.problem.specs.Problem.{AreHomesDue, problem_of};
ghost use Rattle.problem.specs.declared.parts.Part.TheVariants as part;
ghost use Rattle.res_model.specs.Placed.{IsPlaced};
ghost use Rattle.search_api.specs.Accounts.{Accounted};
ghost use Rattle.res_model.specs.Valid.{IsValid};
ghost use Rattle.solver.specs.Owed.{AreReadBack, AreSound, OfProblem, OfWhole};
ghost use Rattle.solver.specs.Spelled.{IsAsked};
ghost use Rattle.wish_search.specs.Early.{IsEarly};

use crate::proof_text::refutation_text;
use crate::wide::too_wide;
use access_lines::accesses_are_read;
use answers::{Answer, Status};
use box_judge::PinClockJudge;
use choice_rank::least_of;
use choice_setup::{choices_are_allowed, generate};
use problem::{Part, Problem, build, wide_variable};
use refusal::Refusal;
use reg_machine::Op;
use report::report_text;
use res_base::{Items, OutOfMemory};
use res_io::Gate;
use res_model::{Opts, Project, Tables};
use search_api::Outcome;
use std::alloc::Global;
use std::sync::Wait;
use std::thread::Threads;
use wish_search::{Asked, Early, ask_early, search_after};

/// The refutation of all choices below the best one, where it is asked for.
fn more_of(
    alloc: Global,
    judge: &PinClockJudge,
    outcome: &Outcome,
    proof: bool,
) -> Result<Vec<u8>, OutOfMemory>
    requires { Accounted (whole_meaning judge.now.problem) outcome.now.best outcome.now.kept outcome.now.closed }
    ensures { IfOk result (λ x. IsAsked proof (whole_meaning judge.now.problem) outcome.now.best x.items) }
{
    if proof {
        refutation_text(alloc, judge, outcome)
    } else {
        Ok(Vec::new(alloc))
    }
}

/// The refutation of all choices.
fn refuted(
    alloc: Global,
    judge: &PinClockJudge,
    outcome: &Outcome,
    proof: bool,
) -> Result<Answer, OutOfMemory>
    requires accounted { Accounted (whole_meaning judge.now.problem) outcome.now.best outcome.now.kept outcome.now.closed }
    requires none { NoneLegal judge.now.problem.shape (meets judge.now.problem) }
    requires best { outcome.now.best ≡ None }
    ensures { IfOk result (λ a. OfWhole proof judge.now.problem a) }
{
    let text = refutation_text(alloc, judge, outcome)?;
    Ok(Answer {
        status: Status::NoChoice,
        text: Items::of(text),
    })
}

/// That the accesses of a choice are to registers that there are.
fn are_registers(p: &Problem, at: &[u16], ops: &[Op])
    requires { ops.now ≡ writes_of (setting_of p.now at.now) }
    ensures { Each IsOp ops.now }
{
    let _ = p.parts();
    let _ = at;
}

/// That the setting of a choice can be set up.
fn is_settable(p: &Problem, at: &[u16])
    requires choice { IsChoice p.now.shape at.now }
    requires whole { p.now.first ≢ 0 }
    ensures { IsSettable (setting_of p.now at.now) }
{
    p.parts_agree();
    p.parts().tables.keeps_rules();
    choices_are_allowed();
    let _ = at;
}

/// That the C text of the accesses of a choice is read as these.
fn are_read_back(p: &Problem, at: &[u16])
    requires choice { IsChoice p.now.shape at.now }
    requires whole { p.now.first ≢ 0 }
    ensures { AreReadBack (writes_of (setting_of p.now at.now)) }
{
    is_settable(p, at);
    accesses_are_read();
}

/// That the table of a problem keeps every rule.
fn is_valid(p: &Problem)
    ensures { IsValid p.now.tables }
{
    p.parts().tables.keeps_rules();
}

/// The report of a choice that meets every limit.
fn report_of(alloc: Global, p: &Problem, at: &[u16]) -> Result<Vec<u8>, OutOfMemory>
    requires choice { IsChoice p.now.shape at.now }
    requires whole { p.now.first ≢ 0 }
    requires meets { meets p.now at.now ≡ true }
    ensures report { IfOk result (λ x. x.items ≡ report_text p.now at.now (writes_of (setting_of p.now at.now))) }
    ensures sound { OnOk result (AreSound p.now at.now) }
    ensures read_back { OnOk result (AreReadBack (writes_of (setting_of p.now at.now))) }
{
    are_read_back(p, at);
    let ops = generate(alloc, p, at)?;
    are_registers(p, at, ops.as_slice());
    let text = report_text(alloc, p, at, ops.as_slice())?;
    Ok(text)
}

/// The report of a least choice, with what is asked for behind it.
fn reported(
    alloc: Global,
    p: &Problem,
    rank: u64,
    more: &[u8],
    proof: bool,
) -> Result<Answer, OutOfMemory>
    requires whole { p.now.first ≢ 0 }
    requires is_whole { IsWhole p.now }
    requires placed { Each (IsPlaced p.now.tables) p.now.signals }
    requires answer { IsAnswer p.now.shape (meets p.now) (Some rank) }
    requires more { IsAsked proof (whole_meaning p.now) (Some rank) more.now }
    ensures { IfOk result (λ a. OfWhole proof p.now a) }
{
    is_valid(p);
    let at = least_of(alloc, &p.parts().shape, rank)?;
    let mut text = report_of(alloc, p, at.as_slice())?;
    text.extend_from_slice(more)?;
    Ok(Answer {
        status: Status::Done,
        text: Items::of(text),
    })
}

/// What is due where the search has accounted for each choice.
fn told(
    alloc: Global,
    judge: &PinClockJudge,
    outcome: &Outcome,
    proof: bool,
) -> Result<Answer, OutOfMemory>
    requires whole { judge.now.problem.first ≢ 0 }
    requires placed { Each (IsPlaced judge.now.problem.tables) judge.now.problem.signals }
    requires accounted { Accounted (whole_meaning judge.now.problem) outcome.now.best outcome.now.kept outcome.now.closed }
    requires answer { IsAnswer judge.now.problem.shape (meets judge.now.problem) outcome.now.best }
    ensures { IfOk result (λ a. OfWhole proof judge.now.problem a) }
{
    match outcome.best {
        Some(rank) => {
            let more = more_of(alloc, judge, outcome, proof)?;
            reported(alloc, judge.problem(), rank, more.as_slice(), proof)
        }
        None => refuted(alloc, judge, outcome, proof),
    }
}

/// What is due where so many workers have accounted for each choice.
fn searched<R: Threads + Wait + Sync, G: Gate + Sync>(
    rt: &R,
    alloc: Global,
    judge: &PinClockJudge,
    early: Early,
    proof: bool,
    workers: u32,
    gate: &G,
) -> Result<Answer, OutOfMemory>
    requires whole { judge.now.problem.first ≢ 0 }
    requires placed { Each (IsPlaced judge.now.problem.tables) judge.now.problem.signals }
    requires early { IsEarly judge.now.problem early }
    requires workers { (1 ≤ workers) × (workers ≤ 16) }
    ensures { IfOk result (λ a. OfWhole proof judge.now.problem a) }
{
    let outcome = search_after(rt, alloc, judge, early, workers, gate)?;
    told(alloc, judge, &outcome, proof)
}

/// What is due where a judge is made. A least choice that is known early needs no search of the others, where no refutation is
/// asked for.
fn judged<R: Threads + Wait + Sync, G: Gate + Sync>(
    rt: &R,
    alloc: Global,
    judge: &PinClockJudge,
    early: Early,
    proof: bool,
    workers: u32,
    gate: &G,
) -> Result<Answer, OutOfMemory>
    requires whole { judge.now.problem.first ≢ 0 }
    requires placed { Each (IsPlaced judge.now.problem.tables) judge.now.problem.signals }
    requires early { IsEarly judge.now.problem early }
    requires workers { (1 ≤ workers) × (workers ≤ 16) }
    ensures { IfOk result (λ a. OfWhole proof judge.now.problem a) }
{
    match early {
        Early::Least { rank } if !proof => reported(alloc, judge.problem(), rank, &[], proof),
        _ => searched(rt, alloc, judge, early, proof, workers, gate),
    }
}

/// What is due for a problem, of which something may be known early.
fn answered<R: Threads + Wait + Sync, G: Gate + Sync>(
    rt: &R,
    alloc: Global,
    p: Problem,
    proof: bool,
    workers: u32,
    gate: &G,
) -> Result<Answer, OutOfMemory>
    requires whole { p.first ≢ 0 }
    requires placed { Each (IsPlaced p.tables) p.signals }
    requires workers { (1 ≤ workers) × (workers ≤ 16) }
    ensures { IfOk result (λ a. OfWhole proof p a) }
{
    let Asked { problem, early } = ask_early(alloc, p)?;
    let judge = PinClockJudge::new(alloc, problem)?;
    judged(rt, alloc, &judge, early, proof, workers, gate)
}

/// The report of the least choice of pins and clocks that meets every limit, or the refutation of all choices.
///
/// It is searched by 1 to 16 workers at a time. What is printed is the same whoever was first.
pub fn resolve<R: Threads + Wait + Sync, G: Gate + Sync>(
    rt: &R,
    alloc: Global,
    t: Tables,
    p: Project,
    opts: &Opts,
    proof: bool,
    workers: u32,
    gate: &G,
) -> Result<Answer, OutOfMemory>
    requires few { length p.signals ≤ 160 }
    requires placed { Each (IsPlaced t) p.signals }
    requires hertz { p.hse_hz < 2 ^ 32 }
    requires homes { AreHomesDue t p opts.now part.Whole }
    requires workers { (1 ≤ workers) × (workers ≤ 16) }
    ensures { IfOk result (λ a. OfProblem (problem_of t p opts.now part.Whole) (OfWhole proof (problem_of t p opts.now part.Whole)) a) }
{
    match build(alloc, t, p, opts, Part::Whole) {
        Ok(problem) => answered(rt, alloc, problem, proof, workers, gate),
        Err(Refusal::Fault(fault)) => too_wide(alloc, wide_variable(fault)),
        Err(Refusal::OutOfMemory) => Err(OutOfMemory),
    }
}
