//! The text of a project with a choice as its homes.
ghost use Rattle.std.specs.Prelude.{◌≡◌, ◌≢◌, ◌≤◌, ◌<◌, ◌+◌, ◌^◌, ◌++◌, length, nat_le, true, IfOk, OnOk};
ghost use Rattle.choice_rank.specs.Choices.{IsChoice};
ghost use Rattle.refusal.specs.Refusals.{Gives};
ghost use Rattle.ioc_lines.specs.Lines.{text_lines};
ghost use Rattle.res_model.specs.Placement.{fits};
ghost use Rattle.res_model.specs.declared.opts.Opts.{Opts};
ghost use Rattle.ioc_write.specs.Plans.{IsPlan};
ghost use Rattle.ioc_write.specs.ReadsBack.{IsOfText, ReadsBack};
ghost use Rattle.ioc_write.specs.Survey.{IsSurvey, above};
ghost use Rattle.ioc_write.specs.WriteBack.{appended, ends_with_newline, followed_by, lines_back, needs_of, pins_written, uses_of, written_back};

use crate::append::{needs_of, put_clock_lines, put_needs};
use crate::fault::BackFault;
use crate::plan::{Plan, plan_of, uses_of};
use crate::survey::{Survey, survey_of};
use crate::variable::VARIABLES;
use crate::write::put_lines;
use problem::Problem;
use refusal::Refusal;
use res_base::OutOfMemory;
use res_model::PinUse;
use std::alloc::Global;

/// Whether the needs can be numbered above the last number.
fn have_numbers(last: Option<u64>, needs: usize) -> bool
    requires { needs ≤ 160 }
    ensures { result ≡ nat_le (above last + needs) (2 ^ 64) }
{
    match last {
        Some(number) => number <= u64::MAX - needs as u64,
        None => true,
    }
}

/// What stands behind the lines.
#[tactic(auto, unfolding(crate::specs::WriteBack::appended))]
fn more_of(
    alloc: Global,
    plan: &Plan<'_>,
    survey: &Survey,
    uses: &[PinUse],
    text: &[u8],
) -> Result<Vec<u8>, OutOfMemory>
    requires plan { IsPlan plan.now }
    requires survey { IsSurvey (text_lines text.now) survey.now }
    requires uses { uses.now ≡ uses_of plan.now.problem.now plan.now.at.now }
    requires as_many { length uses.now ≡ length plan.now.problem.now.signals }
    requires room { above survey.now.last + needs_of plan.now.problem.now.signals ≤ 2 ^ 64 }
    ensures { IfOk result (λ v. v.items ≡ appended plan.now.problem.now plan.now.at.now (text_lines text.now)) }
{
    let _ = text;
    let parts = plan.problem.parts();
    let mut out = Vec::new(alloc);
    put_needs(
        alloc,
        &mut out,
        parts.tables.parts(),
        survey.last,
        parts.signals.as_slice(),
        uses,
    )?;
    put_clock_lines(
        alloc,
        &mut out,
        plan,
        survey.variables.as_slice(),
        &VARIABLES,
    )?;
    Ok(out)
}

fn ends_with_newline(text: &[u8]) -> bool
    ensures { result ≡ ends_with_newline text.now }
{
    match text {
        [.., b] => *b == b'\n',
        [] => false,
    }
}

/// Appends lines that begin a line of their own.
fn put_more(out: &mut Vec<u8>, more: &[u8]) -> Result<(), OutOfMemory>
    ensures { OnOk result (out.new.items ≡ followed_by out.old.items more.now) }
{
    if more.is_empty() {
        return Ok(());
    }
    if !ends_with_newline(out.as_slice()) {
        out.push(b'\n')?;
    }
    out.extend_from_slice(more)?;
    Ok(())
}

/// How many needs a problem has.
fn needs_in(p: &Problem) -> usize
    ensures needs { result ≡ needs_of p.now.signals }
    ensures few { result ≤ 160 }
{
    p.parts_agree();
    needs_of(p.parts().signals.as_slice())
}

/// The lines as the plan leaves them, and what stands behind them.
fn lines_back(
    alloc: Global,
    text: &[u8],
    plan: &Plan<'_>,
    survey: &Survey,
    uses: &[PinUse],
) -> Result<Vec<u8>, Refusal<BackFault>>
    requires few { length text.now < 2 ^ 32 }
    requires plan { IsPlan plan.now }
    requires survey { IsSurvey (text_lines text.now) survey.now }
    requires uses { uses.now ≡ uses_of plan.now.problem.now plan.now.at.now }
    requires as_many { length uses.now ≡ length plan.now.problem.now.signals }
    requires room { above survey.now.last + needs_of plan.now.problem.now.signals ≤ 2 ^ 64 }
    requires pins { plan.now.pins ≡ pins_written plan.now.problem.now (text_lines text.now) }
    ensures { Gives (λ v. v.items) result (lines_back plan.now.problem.now plan.now.at.now (text_lines text.now)) }
{
    let mut out = Vec::with_capacity(alloc, text.len())?;
    put_lines(alloc, &mut out, plan, text)?;
    let more = more_of(alloc, plan, survey, uses, text)?;
    put_more(&mut out, more.as_slice())?;
    Ok(out)
}

/// The same text, with no word on how it reads.
#[tactic(auto, unfolding(crate::specs::WriteBack::written_back))]
fn text_back(
    alloc: Global,
    text: &[u8],
    p: &Problem,
    at: &[u16],
) -> Result<Vec<u8>, Refusal<BackFault>>
    requires few { length text.now < 2 ^ 32 }
    requires choice { IsChoice p.now.shape at.now }
    requires whole { p.now.first ≢ 0 }
    ensures { Gives (λ v. v.items) result (written_back text.now p.now at.now) }
{
    let survey = survey_of(alloc, text)?;
    let needs = needs_in(p);
    if !have_numbers(survey.last, needs) {
        return Err(Refusal::Fault(BackFault::NoNumber));
    }
    let uses = uses_of(alloc, p, at)?;
    let plan = plan_of(alloc, p, at, uses.as_slice(), survey.pins + needs as u64)?;
    lines_back(alloc, text, &plan, &survey, uses.as_slice())
}

/// The text of a project with a choice as its homes.
///
/// `NoNumber` comes where the needs would be numbered above 2^64 - 1; else `LongLine` names the first line of the text
/// that would get more than 65,535 bytes. Where the problem is that of the text under some options, and the pins of the
/// choice fit, what is written reads back: under the same options but no needs, with the choice as its homes.
pub fn write_back(
    alloc: Global,
    text: &[u8],
    p: &Problem,
    at: &[u16],
) -> Result<Vec<u8>, Refusal<BackFault>>
    requires few { length text.now < 2 ^ 32 }
    requires choice { IsChoice p.now.shape at.now }
    requires whole { p.now.first ≢ 0 }
    ensures written { Gives (λ v. v.items) result (written_back text.now p.now at.now) }
    ensures reads_back { (opts : Opts) → IsOfText text.now opts p.now → fits p.now.tables (uses_of p.now at.now) ≡ true → IfOk result (λ v. ReadsBack v.items opts p.now at.now) }
{
    p.parts_agree();
    p.parts().tables.keeps_rules();
    text_back(alloc, text, p, at)
}
