//! What is due where a project is to be explained.
ghost use Rattle.std.specs.Prelude.{◌≡◌, ◌≢◌, ◌≤◌, ◌<◌, ◌^◌, ◌++◌, codes, decimal, length, IfOk, string_bytes};
ghost use Rattle.answers.specs.Said.{Says};
ghost use Rattle.answers.specs.declared.answer.Status.TheVariants as status;
ghost use Rattle.box_rules.specs.Judged.{whole_meaning};
ghost use Rattle.choice_rank.specs.Choices.{IsChoice, choices_of, cost_of, rank_of};
ghost use Rattle.choice_rank.specs.Least.{IsLeast, NoneLegal};
ghost use Rattle.least_search.specs.Found.{IsProof};
ghost use Rattle.problem.specs.Meets.{meets};
ghost use Rattle.problem.specs.Problem.{AreHomesDue};
ghost use Rattle.problem.specs.declared.parts.Part.TheVariants as part;
ghost use Rattle.res_base.specs.Lists.{Each};
ghost use Rattle.res_model.specs.Placed.{IsPlaced};
ghost use Rattle.explain.specs.Due.{OfExplain, OfNarrow, fits_text, rank_line, refused_text};
ghost use Rattle.explain.specs.GiveUp.{or_none};

use crate::helps::helps;
use crate::words::put_number;
use answers::{Answer, Status, counts};
use explain_text::{changes_text, why_text};
use ioc_text::read_ioc;
use least_search::Found;
use problem::{Part, Problem, build, wide_variable};
use refusal::Refusal;
use refutation::Proof;
use res_base::{Items, OutOfMemory};
use res_model::{Home, Opts, Project, Tables};
use std::alloc::{AllocError, Global};
use wish_search::{FoundIn, found_whole};

#[tactic(auto, unfolding(crate::specs::Due::rank_line))]
fn rank_line(alloc: Global, rank: u64, cost: u64, choices: u64) -> Result<String, AllocError>
    ensures { IfOk result (λ x. string_bytes x ≡ rank_line rank cost choices) }
{
    let mut line = String::new(alloc);
    put_number(alloc, &mut line, "rank ", rank)?;
    put_number(alloc, &mut line, " cost ", cost)?;
    put_number(alloc, &mut line, " of ", choices)?;
    line.push_str("\n")?;
    Ok(line)
}

/// The rank line of a choice.
fn ranked(alloc: Global, p: &Problem, at: &[u16]) -> Result<String, AllocError>
    requires { IsChoice p.now.shape at.now }
    ensures { IfOk result (λ x. string_bytes x ≡ rank_line (rank_of p.now.shape at.now) (cost_of p.now.shape at.now) (choices_of p.now.shape)) }
{
    let shape = &p.parts().shape;
    let _vars = shape.vars();
    rank_line(
        alloc,
        shape.rank(at),
        u64::from(shape.cost(at)),
        shape.choices(),
    )
}

/// What a choice is and what it changes.
#[tactic(auto, unfolding(crate::specs::Due::fits_text))]
fn fits_text(
    alloc: Global,
    homes: &[Home; 10],
    p: &Problem,
    at: &[u16],
) -> Result<Vec<u8>, OutOfMemory>
    requires choice { IsChoice p.now.shape at.now }
    requires whole { p.now.first ≢ 0 }
    ensures { IfOk result (λ x. x.items ≡ fits_text homes.now p.now at.now) }
{
    let line = ranked(alloc, p, at)?;
    let mut out = Vec::from_slice(alloc, line.as_bytes())?;
    let changes = changes_text(alloc, homes, p, at)?;
    out.extend_from_slice(changes.as_slice())?;
    Ok(out)
}

/// What is due for the least choice.
fn fits(
    alloc: Global,
    homes: &[Home; 10],
    p: &Problem,
    at: &[u16],
    _text: &[u8],
    _opts: &Opts,
) -> Result<Answer, OutOfMemory>
    requires least { IsLeast p.now.shape (meets p.now) at.now }
    requires whole { p.now.first ≢ 0 }
    ensures { IfOk result (λ a. OfNarrow homes.now p.now _text.now _opts.now a) }
{
    let text = fits_text(alloc, homes, p, at)?;
    Ok(Answer {
        status: Status::Done,
        text: Items::of(text),
    })
}

/// The lines of what helps, or the one that nothing does.
#[tactic(auto, unfolding(crate::specs::GiveUp::or_none))]
fn or_none(lines: &[u8]) -> &[u8]
    ensures { result.now ≡ or_none lines.now }
{
    if lines.len() == 0 {
        b"no single thing is found to help\n"
    } else {
        lines
    }
}

#[tactic(auto, unfolding(crate::specs::Due::refused_text))]
fn refused_text(alloc: Global, reasons: &[u8], helps: &[u8]) -> Result<Vec<u8>, OutOfMemory>
    ensures { IfOk result (λ x. x.items ≡ refused_text reasons.now helps.now) }
{
    let mut out = Vec::from_slice(alloc, b"no choice\n")?;
    out.extend_from_slice(reasons)?;
    out.extend_from_slice(or_none(helps))?;
    Ok(out)
}

/// What is due where no choice meets the limits.
fn refused(
    alloc: Global,
    _homes: &[Home; 10],
    p: &Problem,
    proof: &Proof,
    text: &[u8],
    opts: &Opts,
) -> Result<Answer, OutOfMemory>
    requires none { NoneLegal p.now.shape (meets p.now) }
    requires proof { IsProof (whole_meaning p.now) proof.now }
    requires whole { p.now.first ≢ 0 }
    requires short { length text.now < 2 ^ 32 }
    ensures { IfOk result (λ a. OfNarrow _homes.now p.now text.now opts.now a) }
{
    let Ok(ioc) = read_ioc(alloc, text) else {
        return Err(OutOfMemory);
    };
    let reasons = why_text(alloc, p, proof)?;
    let helps = helps(alloc, p, &ioc, opts)?;
    let said = refused_text(alloc, reasons.as_slice(), helps.as_slice())?;
    Ok(Answer {
        status: Status::NoChoice,
        text: Items::of(said),
    })
}

/// What is due for a problem whose ranks fit.
fn narrow(
    alloc: Global,
    homes: &[Home; 10],
    p: Problem,
    text: &[u8],
    opts: &Opts,
) -> Result<Answer, OutOfMemory>
    requires whole { p.first ≢ 0 }
    requires short { length text.now < 2 ^ 32 }
    ensures { IfOk result (λ a. OfNarrow homes.now p text.now opts.now a) }
{
    let FoundIn { judge, found } = found_whole(alloc, p)?;
    match found {
        Found::Choice { at } => fits(alloc, homes, judge.problem(), at.as_slice(), text, opts),
        Found::Nothing { proof } => refused(alloc, homes, judge.problem(), &proof, text, opts),
    }
}

/// What is said of a problem whose ranks would not fit.
fn too_wide(alloc: Global, variable: u16) -> Result<Answer, OutOfMemory>
    ensures { IfOk result (λ a. Says a status.TooWide (codes "too wide: variable " ++ decimal variable)) }
{
    counts(
        alloc,
        Status::TooWide,
        "too wide: variable ",
        u64::from(variable),
    )
}

/// What the least choice of pins and clocks changes against a project, or why no choice meets the limits, and which single
/// things help where they are given up.
///
/// `text` is the text that was read as the project. Where it is not read as lines, the answer is want of memory.
pub fn explain(
    alloc: Global,
    t: Tables,
    p: Project,
    text: &[u8],
    opts: &Opts,
) -> Result<Answer, OutOfMemory>
    requires few { length p.signals ≤ 160 }
    requires placed { Each (IsPlaced t) p.signals }
    requires hertz { p.hse_hz < 2 ^ 32 }
    requires homes { AreHomesDue t p opts.now part.Whole }
    requires short { length text.now < 2 ^ 32 }
    ensures { IfOk result (λ a. OfExplain t p text.now opts.now a) }
{
    let homes = p.clock;
    match build(alloc, t, p, opts, Part::Whole) {
        Ok(problem) => narrow(alloc, &homes, problem, text, opts),
        Err(Refusal::Fault(fault)) => too_wide(alloc, wide_variable(fault)),
        Err(Refusal::OutOfMemory) => Err(OutOfMemory),
    }
}
