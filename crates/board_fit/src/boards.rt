//! The least choice of a board that may be too wide to be ranked in one number, or why there is none.
ghost use Rattle.std.specs.Prelude.{◌≡◌, ◌≢◌, ◌≤◌, ◌<◌, ◌^◌, ◌+◌, ◌++◌, codes, decimal, length, IfOk, IfErr, OnOk};
ghost use Rattle.answers.specs.Said.{Says, answered};
ghost use Rattle.answers.specs.declared.answer.Status.TheVariants as status;
ghost use Rattle.res_base.specs.Lists.{Each};
ghost use Rattle.refusal.specs.Refusals.{IfFault};
ghost use Rattle.choice_rank.specs.Choices.{IsChoice, IsNarrow};
ghost use Rattle.choice_rank.specs.Least.{IsLeast};
ghost use Rattle.box_rules.specs.Judged.{pin_meaning, whole_meaning};
ghost use Rattle.problem.specs.Meets.{meets};
ghost use Rattle.problem.specs.Problem.{AreHomesDue, IsRefused};
ghost use Rattle.problem.specs.declared.parts.Part.TheVariants as part;
ghost use Rattle.res_model.specs.Placed.{IsPlaced};
ghost use Rattle.least_search.specs.Found.{IsFound};
ghost use Rattle.proof_shift.specs.Raised.{IsLow, raised_proof};
ghost use Rattle.board_fit.specs.Board.{OfBoard};
ghost use Rattle.board_fit.specs.ByParts.{OfClocks, OfParts, proof_text};
ghost use Rattle.board_fit.specs.Parts.{IsBoard, clocks_of, pins_of, whole_of};

use crate::copies::copied;
use crate::fixing::fixed;
use crate::texts::choice_text;
use answers::{Answer, Status, counts};
use box_judge::{PinClockJudge, PinJudge};
use choice_rank::ShapeFault;
use least_search::{Found, found};
use problem::{Part, Problem, build, wide_variable};
use proof_shift::raised;
use refusal::Refusal;
use refutation::{Proof, write_proof};
use res_base::{Items, OutOfMemory};
use res_model::{Home, Opts, Project, Tables};
use std::alloc::Global;
use wish_search::{FoundIn, found_whole};

/// The text of a refutation.
fn refuted(alloc: Global, proof: &Proof) -> Result<Answer, OutOfMemory>
    ensures { IfOk result (λ a. a ≡ answered status.NoChoice (proof_text proof.now)) }
{
    let text = write_proof(alloc, proof)?;
    Ok(Answer {
        status: Status::NoChoice,
        text: Items::of(text),
    })
}

/// The text of a placement and of the least clocks beside it.
fn told(
    alloc: Global,
    q: &Problem,
    at: &[u16],
    one: &Problem,
    k: Vec<u16>,
) -> Result<Answer, OutOfMemory>
    requires placement { IsChoice q.now.shape at.now }
    requires whole { one.now.first ≢ 0 }
    requires least { IsLeast one.now.shape (meets one.now) k.items }
    ensures { IfOk result (λ a. OfClocks q.now at.now one.now a) }
{
    let text = choice_text(alloc, q, at, one, k.as_slice())?;
    Ok(Answer {
        status: Status::Done,
        text: Items::of(text),
    })
}

/// What the clocks beside a placement come to, where they were searched.
fn clocks_told(
    alloc: Global,
    q: &Problem,
    at: &[u16],
    judge: &PinClockJudge,
    outcome: Found,
) -> Result<Answer, OutOfMemory>
    requires placement { IsChoice q.now.shape at.now }
    requires whole { judge.now.problem.first ≢ 0 }
    requires found { IsFound (whole_meaning judge.now.problem) outcome }
    ensures { IfOk result (λ a. OfClocks q.now at.now judge.now.problem a) }
{
    match outcome {
        Found::Choice { at: k } => told(alloc, q, at, judge.problem(), k),
        Found::Nothing { proof } => refuted(alloc, &proof),
    }
}

/// What the clocks beside a placement come to.
fn clocked(alloc: Global, q: &Problem, at: &[u16], one: Problem) -> Result<Answer, OutOfMemory>
    requires placement { IsChoice q.now.shape at.now }
    requires whole { one.first ≢ 0 }
    ensures { IfOk result (λ a. OfClocks q.now at.now one a) }
{
    let FoundIn { judge, found } = found_whole(alloc, one)?;
    clocks_told(alloc, q, at, &judge, found)
}

/// The problem of the clocks beside a placement. Its ranks always fit.
fn clocks_beside(
    alloc: Global,
    t: Tables,
    p: Project,
    opts: &Opts,
    q: &Problem,
    at: &[u16],
) -> Result<Problem, OutOfMemory>
    requires board { IsBoard t p opts.now }
    requires pins { q.now ≡ pins_of t p opts.now }
    requires placement { IsChoice q.now.shape at.now }
    ensures { IfOk result (λ one. one ≡ clocks_of t p opts.now at.now) }
{
    match build(alloc, t, fixed(p, q, at), opts, Part::Whole) {
        Ok(one) => Ok(one),
        Err(Refusal::OutOfMemory) => Err(OutOfMemory),
        Err(Refusal::Fault(_)) => unreachable!(),
    }
}

/// What the clocks beside the least placement come to.
fn placed(
    alloc: Global,
    t: Tables,
    p: Project,
    opts: &Opts,
    q: &Problem,
    at: &[u16],
) -> Result<Answer, OutOfMemory>
    requires board { IsBoard t p opts.now }
    requires pins { q.now ≡ pins_of t p opts.now }
    requires least { IsLeast q.now.shape (meets q.now) at.now }
    ensures { IfOk result (λ a. OfParts t p opts.now a) }
{
    let one = clocks_beside(alloc, t, p, opts, q, at)?;
    clocked(alloc, q, at, one)
}

/// The refutation of all placements, told over the board.
fn unplaced(alloc: Global, proof: Proof) -> Result<Answer, OutOfMemory>
    requires { Each IsLow proof.nodes }
    ensures { IfOk result (λ a. a ≡ answered status.NoChoice (proof_text (raised_proof proof))) }
{
    let told = raised(alloc, proof)?;
    refuted(alloc, &told)
}

/// What the pins, where they were searched, and then the clocks come to.
fn pins_told(
    alloc: Global,
    t: Tables,
    p: Project,
    opts: &Opts,
    q: &Problem,
    outcome: Found,
) -> Result<Answer, OutOfMemory>
    requires board { IsBoard t p opts.now }
    requires pins { q.now ≡ pins_of t p opts.now }
    requires found { IsFound (pin_meaning q.now) outcome }
    ensures { IfOk result (λ a. OfParts t p opts.now a) }
{
    match outcome {
        Found::Choice { at } => placed(alloc, t, p, opts, q, at.as_slice()),
        Found::Nothing { proof } => unplaced(alloc, proof),
    }
}

/// What the pins, and then the clocks, come to.
fn searched(
    alloc: Global,
    t: Tables,
    p: Project,
    opts: &Opts,
    q: Problem,
) -> Result<Answer, OutOfMemory>
    requires board { IsBoard t p opts.now }
    requires pins { q ≡ pins_of t p opts.now }
    requires alone { q.first ≡ 0 }
    ensures { IfOk result (λ a. OfParts t p opts.now a) }
{
    let judge = PinJudge::new(alloc, q)?;
    let outcome = found(alloc, &judge)?;
    pins_told(alloc, t, p, opts, judge.problem(), outcome)
}

/// The homes of the clock variables, which are ten.
fn homes_of(p: &Project) -> &[Home]
    ensures { length p.now.clock ≡ 10 }
{
    &p.clock
}

/// That a table and a project make a board.
fn is_board(t: &Tables, p: &Project, opts: &Opts)
    requires few { length p.now.signals ≤ 160 }
    requires placed { Each (IsPlaced t.now) p.now.signals }
    requires hertz { p.now.hse_hz < 2 ^ 32 }
    requires homes { AreHomesDue t.now p.now opts.now part.Whole }
    ensures { IsBoard t.now p.now opts.now }
{
    t.keeps_rules();
    let _ = homes_of(p);
    let _ = opts;
}

/// The problem of the pins alone, from copies.
fn pins_alone(
    alloc: Global,
    t: &Tables,
    p: &Project,
    opts: &Opts,
) -> Result<Problem, Refusal<ShapeFault>>
    requires { IsBoard t.now p.now opts.now }
    ensures pins { IfOk result (λ q. q ≡ pins_of t.now p.now opts.now) }
    ensures alone { IfOk result (λ q. q.first ≡ 0) }
    ensures narrow { OnOk result (IsNarrow (pins_of t.now p.now opts.now).shape) }
    ensures refused { IfErr result (λ e. IfFault e (IsRefused (pins_of t.now p.now opts.now).shape)) }
{
    let Ok(tables) = t.copy(alloc) else {
        return Err(Refusal::OutOfMemory);
    };
    let Ok(project) = copied(alloc, p) else {
        return Err(Refusal::OutOfMemory);
    };
    build(alloc, tables, project, opts, Part::PinsOnly)
}

/// What a board comes to whose pins alone are too wide: the variable is counted with the ten of the clocks before it.
fn too_wide(alloc: Global, variable: u16) -> Result<Answer, OutOfMemory>
    ensures { IfOk result (λ a. Says a status.TooWide (codes "too wide: variable " ++ decimal (variable + 10))) }
{
    counts(
        alloc,
        Status::TooWide,
        "too wide: variable ",
        u64::from(variable) + 10,
    )
}

/// The report of the least choice of pins and clocks that meets every limit, without its rank, or the refutation of all
/// choices.
///
/// Pins and clocks meet in which signals there are, not in where they stand. So the pins are searched first, and then the
/// clocks with each signal where the least placement has it, and only the pins' own ranks must fit.
pub fn board(alloc: Global, t: Tables, p: Project, opts: &Opts) -> Result<Answer, OutOfMemory>
    requires few { length p.signals ≤ 160 }
    requires placed { Each (IsPlaced t) p.signals }
    requires hertz { p.hse_hz < 2 ^ 32 }
    requires homes { AreHomesDue t p opts.now part.Whole }
    ensures { IfOk result (λ a. OfBoard (pins_of t p opts.now) (whole_of t p opts.now) a) }
{
    is_board(&t, &p, opts);
    match pins_alone(alloc, &t, &p, opts) {
        Ok(q) => searched(alloc, t, p, opts, q),
        Err(Refusal::Fault(fault)) => too_wide(alloc, wide_variable(fault)),
        Err(Refusal::OutOfMemory) => Err(OutOfMemory),
    }
}
