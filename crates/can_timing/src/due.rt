//! What is due for a request.
ghost use Rattle.std.specs.Prelude.{◌≡◌, ◌++◌, IfOk, OnOk};
ghost use Rattle.box_split.specs.Boxes.{whole};
ghost use Rattle.choice_rank.specs.Choices.{IsChoice, rank_of};
ghost use Rattle.can_timing.specs.Timings.{IsTiming, can_shape, timing_of};
ghost use Rattle.can_timing.specs.Judged.{can_meaning};
ghost use Rattle.can_timing.specs.Texts.{IsDue, can_text};
ghost use Rattle.can_timing.specs.Walk.{IsFirst, IsRefuted, IsWalked, refutation_start};

use crate::judge::CanJudge;
use crate::lines::{point_line, put_btr_line, rank_line, rate_line, segments_line};
use crate::request::Request;
use crate::timing::{Timing, timing_of};
use crate::walk::{all_timings, first_in};
use answers::{Answer, Status};
use choice_rank::least_of;
use res_base::{Items, OutOfMemory, Ratio, put_line};
use search_api::Judge;
use std::alloc::Global;

/// The bit timing that serves a request, or the proof that none does.
///
/// The clock is in hertz and compares exactly, the rate in bits per second, and the sample point
/// with its tolerance in per mille of a bit. Status 0: five lines, of the timing of least rank.
/// Status 1, exactly where no timing serves: the canonical proof.
pub fn answer(
    alloc: Global,
    pclk: Ratio,
    rate: u32,
    point: u32,
    tolerance: u32,
) -> Result<Answer, OutOfMemory>
    ensures { IfOk result (λ a. IsDue record { pclk = pclk; rate = rate; point = point; tolerance = tolerance } a) }
{
    let judge = CanJudge::new(alloc, pclk, rate, point, tolerance)?;
    let mut text = start_of_refutation(alloc)?;
    match first_of_all(&judge, &mut text)? {
        Some(rank) => found(alloc, &judge, rank),
        None => refuted(&judge, text),
    }
}

/// The lines of a refutation before its nodes.
fn start_of_refutation(alloc: Global) -> Result<Vec<u8>, OutOfMemory>
    ensures { IfOk result (λ x. x.items ≡ refutation_start) }
{
    let mut out = Vec::new(alloc);
    put_line(&mut out, b"proof 1")?;
    put_line(&mut out, b"bound none")?;
    Ok(out)
}

/// The rank of the first timing of all that serves; where none does, the nodes of the refutation are appended.
fn first_of_all(j: &CanJudge, out: &mut Vec<u8>) -> Result<Option<u64>, OutOfMemory>
    ensures { IfOk result (IsWalked (can_meaning j.now.request) (whole can_shape) out.old.items out.new.items) }
{
    let all = all_timings(j.shape());
    first_in(&j.request, j.shape(), &all, out)
}

/// What is due where a rank is the least.
fn found(alloc: Global, j: &CanJudge, rank: u64) -> Result<Answer, OutOfMemory>
    requires { IsFirst (can_meaning j.now.request) (whole can_shape) rank }
    ensures { IfOk result (λ a. IsDue j.now.request a) }
{
    let at = least_of(alloc, j.shape(), rank)?;
    let text = can_text(alloc, j, at.as_slice())?;
    Ok(Answer {
        status: Status::Done,
        text: Items::of(text),
    })
}

/// What is due where no choice serves, with the text of the refutation up to its last line.
fn refuted(j: &CanJudge, nodes: Vec<u8>) -> Result<Answer, OutOfMemory>
    requires { IsRefuted (can_meaning j.now.request) (whole can_shape) refutation_start nodes.items }
    ensures { IfOk result (λ a. IsDue j.now.request a) }
{
    let mut text = nodes;
    put_line(&mut text, b"end")?;
    Ok(Answer {
        status: Status::NoChoice,
        text: Items::of(text),
    })
}

/// That the timing of a choice lies in its ranges.
fn in_ranges(at: &[u16]) -> Timing
    requires { IsChoice can_shape at.now }
    ensures is { result ≡ timing_of at.now }
    ensures ranges { IsTiming result }
{
    timing_of(at)
}

/// The rank of a choice.
fn rank_of(j: &CanJudge, at: &[u16]) -> u64
    requires { IsChoice can_shape at.now }
    ensures { result ≡ rank_of can_shape at.now }
{
    j.shape().rank(at)
}

/// The five lines of a choice: its rank, the timing, its quanta with the sample point in whole per
/// mille, the clock in whole hertz with the rate, and the register CAN_BTR.
#[tactic(auto, unfolding(crate::specs::Texts::can_text))]
pub fn can_text(alloc: Global, j: &CanJudge, at: &[u16]) -> Result<Vec<u8>, OutOfMemory>
    requires { IsChoice can_shape at.now }
    ensures { IfOk result (λ x. x.items ≡ can_text j.now.request at.now) }
{
    let t = in_ranges(at);
    let rank = rank_line(alloc, rank_of(j, at))?;
    let segments = segments_line(alloc, t)?;
    let point = point_line(alloc, t)?;
    let rate = rate_line(alloc, &j.request)?;
    let mut out = Vec::from_slice(alloc, rank.as_bytes())?;
    out.extend_from_slice(segments.as_bytes())?;
    out.extend_from_slice(point.as_bytes())?;
    out.extend_from_slice(rate.as_bytes())?;
    put_btr_line(&mut out, t)?;
    Ok(out)
}
