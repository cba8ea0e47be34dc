//! Why no choice meets the limits.
ghost use Rattle.std.specs.Prelude.{◌≡◌, ◌≢◌, ◌<◌, ◌++◌, count_by, IfOk, OnOk, string_bytes};
ghost use Rattle.explain_text.specs.Joined.{joined};
ghost use Rattle.explain_text.specs.Reasons.{boxes_line, is_by_limit, limit_boxes, reason_text, split_text, why};

use crate::hertz::put_number;
use crate::limits::{limit_line, limit_named, limit_words};
use crate::rivals::hall_text;
use problem::Problem;
use refutation::{Node, Proof};
use res_base::OutOfMemory;
use search_api::Reason;
use std::alloc::{AllocError, Global};

/// Whether a leaf is refuted by the limit of this number.
fn is_by_limit(limit: u8, node: &Node) -> bool
    ensures { result ≡ is_by_limit limit node.now }
{
    match node {
        Node::Bad(Reason::Limit(k)) => *k == limit,
        _ => false,
    }
}

/// How many leaves the limit of this number refutes.
fn count_by_limit(limit: u8, nodes: &[Node]) -> usize
    ensures { result ≡ count_by (is_by_limit limit) nodes.now }
{
    nodes
        .iter()
        .filter(|node| is_by_limit(limit, *node))
        .count()
}

#[tactic(auto, unfolding(crate::specs::Reasons::boxes_line))]
fn boxes_line(alloc: Global, limit: u8, boxes: u64) -> Result<String, AllocError>
    ensures { IfOk result (λ x. string_bytes x ≡ boxes_line limit boxes) }
{
    let mut line = String::new(alloc);
    if boxes == 0 {
        return Ok(line);
    }
    put_number(alloc, &mut line, "limit ", u64::from(limit))?;
    line.push_str(": ")?;
    line.push_str(limit_words(limit_named(limit)))?;
    put_number(alloc, &mut line, ", boxes ", boxes)?;
    line.push_str("\n")?;
    Ok(line)
}

/// The line of the limit that stands so far behind the first, with the leaves that it refutes.
#[tactic(auto, unfolding(crate::specs::Reasons::limit_boxes))]
fn limit_boxes(alloc: Global, nodes: &[Node], i: u8) -> Result<String, AllocError>
    requires { i < 15 }
    ensures { IfOk result (λ x. string_bytes x ≡ limit_boxes nodes.now i) }
{
    let limit = i + 3;
    boxes_line(alloc, limit, count_by_limit(limit, nodes) as u64)
}

/// Appends the line of each limit.
fn put_boxes(alloc: Global, out: &mut Vec<u8>, nodes: &[Node]) -> Result<(), OutOfMemory>
    ensures { OnOk result (out.new.items ≡ out.old.items ++ joined 15 (limit_boxes nodes.now)) }
{
    for i in 0..15u8 {
        let line = limit_boxes(alloc, nodes, i)?;
        out.extend_from_slice(line.as_bytes())?;
    }
    Ok(())
}

/// The leaves that each limit refutes.
#[tactic(auto, unfolding(crate::specs::Reasons::split_text))]
fn split_text(alloc: Global, nodes: &[Node]) -> Result<Vec<u8>, OutOfMemory>
    ensures { IfOk result (λ x. x.items ≡ split_text nodes.now) }
{
    let mut out = Vec::new(alloc);
    put_boxes(alloc, &mut out, nodes)?;
    Ok(out)
}

fn limit_text(alloc: Global, p: &Problem, limit: u8) -> Result<Vec<u8>, OutOfMemory>
    requires { p.now.first ≢ 0 }
    ensures { IfOk result (λ x. x.items ≡ reason_text p.now (Reason.Limit limit)) }
{
    let line = limit_line(alloc, p, limit)?;
    let text = Vec::from_slice(alloc, line.as_bytes())?;
    Ok(text)
}

fn reason_text(alloc: Global, p: &Problem, reason: &Reason) -> Result<Vec<u8>, OutOfMemory>
    requires { p.now.first ≢ 0 }
    ensures { IfOk result (λ x. x.items ≡ reason_text p.now reason.now) }
{
    match reason {
        Reason::Hall { class, vars } => hall_text(alloc, p.parts(), *class, vars),
        Reason::Limit(limit) => limit_text(alloc, p, *limit),
    }
}

fn why(alloc: Global, p: &Problem, nodes: &[Node]) -> Result<Vec<u8>, OutOfMemory>
    requires { p.now.first ≢ 0 }
    ensures { IfOk result (λ x. x.items ≡ why p.now nodes.now) }
{
    match nodes {
        [Node::Bad(reason), ..] => reason_text(alloc, p, reason),
        [Node::Split { .. }, ..] => split_text(alloc, nodes),
        _ => Ok(Vec::new(alloc)),
    }
}

/// Why no choice of a whole problem meets the limits, as the root of a refutation of all choices tells it: signals that
/// have too few pins, a limit that nothing can meet, or the limits that shut out a part of the choices each.
pub fn why_text(alloc: Global, p: &Problem, proof: &Proof) -> Result<Vec<u8>, OutOfMemory>
    requires { p.now.first ≢ 0 }
    ensures { IfOk result (λ x. x.items ≡ why p.now proof.now.nodes) }
{
    why(alloc, p, proof.nodes.as_slice())
}
