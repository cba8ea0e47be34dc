//! The lines of a choice.
ghost use Rattle.std.specs.Prelude.{◌≡◌, ◌++◌, IfOk, OnOk, string_bytes};
ghost use Rattle.choice_rank.specs.Choices.{IsChoice, choices_of, cost_of, rank_of};
ghost use Rattle.dma_rules.specs.Streams.{rows_of, shape_of};
ghost use Rattle.dma_rules.specs.Texts.{dma_text, rank_line, request_line, request_lines, row_text};

use crate::streams::{has_rows, request_at, row_of};
use crate::want::DmaWant;
use choice_rank::Shape;
use dma_model::{DmaRequest, DmaRow};
use res_base::OutOfMemory;
use std::alloc::{AllocError, Global};

#[tactic(auto, unfolding(crate::specs::Texts::rank_line))]
fn rank_line(alloc: Global, rank: u64, cost: u32, choices: u64) -> Result<String, AllocError>
    ensures { IfOk result (λ x. string_bytes x ≡ rank_line rank cost choices) }
{
    let line = format!(in alloc; "rank {rank} cost {cost} of {choices}\n")?;
    Ok(line)
}

#[tactic(auto, unfolding(crate::specs::Texts::row_text))]
fn row_text(alloc: Global, r: DmaRow) -> Result<String, AllocError>
    ensures { IfOk result (λ x. string_bytes x ≡ row_text r) }
{
    let controller = r.controller;
    let stream = r.stream;
    let channel = r.channel;
    let text = format!(in alloc; " dma {controller} stream {stream} channel {channel}\n")?;
    Ok(text)
}

/// Appends the line of a request.
fn put_request_line(
    alloc: Global,
    out: &mut Vec<u8>,
    request: &DmaRequest,
    r: DmaRow,
) -> Result<(), AllocError>
    ensures { OnOk result (out.new.items ≡ out.old.items ++ request_line request.now r) }
{
    let text = row_text(alloc, r)?;
    out.extend_from_slice(request.name.as_str().as_bytes())?;
    out.extend_from_slice(text.as_bytes())
}

/// Appends a line for each request with its row.
fn put_request_lines(
    alloc: Global,
    out: &mut Vec<u8>,
    requests: &[DmaRequest],
    at: &[u16],
) -> Result<(), AllocError>
    requires { IsChoice (shape_of requests.now) at.now }
    ensures { OnOk result (out.new.items ≡ out.old.items ++ request_lines requests.now (rows_of requests.now at.now)) }
{
    has_rows(requests, at);
    for place in 0..requests.len() {
        let request = request_at(requests, place);
        put_request_line(alloc, out, request, row_of(requests, at, place))?;
    }
    Ok(())
}

/// The rank line of a choice.
fn ranked(alloc: Global, shape: &Shape, at: &[u16]) -> Result<String, OutOfMemory>
    requires { IsChoice shape.now at.now }
    ensures { IfOk result (λ x. string_bytes x ≡ rank_line (rank_of shape.now at.now) (cost_of shape.now at.now) (choices_of shape.now)) }
{
    let line = rank_line(alloc, shape.rank(at), shape.cost(at), shape.choices())?;
    Ok(line)
}

/// The text of a choice: its rank, and a line for each request.
#[tactic(auto, unfolding(crate::specs::Texts::dma_text))]
pub(crate) fn dma_text(alloc: Global, w: &DmaWant, at: &[u16]) -> Result<Vec<u8>, OutOfMemory>
    requires { IsChoice (shape_of w.now) at.now }
    ensures { IfOk result (λ x. x.items ≡ dma_text w.now at.now) }
{
    let line = ranked(alloc, w.shape(), at)?;
    let mut out = Vec::from_slice(alloc, line.as_bytes())?;
    put_request_lines(alloc, &mut out, w.requests(), at)?;
    Ok(out)
}
