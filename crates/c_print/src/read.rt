//! A list of accesses, from its C text.
ghost use Rattle.std.specs.Prelude.{◌≡◌, ◌+◌, ◌<◌, ◌≤◌, ◌^◌, ◌++◌, ◌||◌, not, map, length, IfOk, IfErr};
ghost use Rattle.std.specs.List.{concat};
ghost use Rattle.refusal.specs.Refusals.{IfFault};
ghost use Rattle.c_print.specs.Text.{op_line, awaits_over, frame};
ghost use Rattle.c_print.specs.Reading.{FitsLine, Reads, Refuses};
ghost use Rattle.c_print.specs.Prefixes.{TakesOps};

use crate::fault::CFault;
use crate::part::{Part, awaits_over};
use crate::prefix::{after, frame_line_at, op_within};
use refusal::Refusal;
use reg_machine::Op;
use res_base::OutOfMemory;
use std::alloc::Global;

/// Reads the accesses of a C function that `c_text` has printed.
///
/// Any other text is refused at its first line that is not of a form due there. A line that has no
/// end is refused too. Where a line is due and the text has come to its end, the refusal names the
/// number after the last line's.
pub fn read_c(alloc: Global, text: &[u8]) -> Result<Vec<Op>, Refusal<CFault>>
    requires { length text.now < 2 ^ 32 }
    ensures read { IfOk result (λ ops. Reads text.now (Ok ops.items)) }
    ensures refused { IfErr result (λ e. IfFault e (Refuses text.now)) }
{
    let (over, rest) = after_frame(text)?;
    let (ops, rest) = ops_in(alloc, over, rest)?;
    let line = ops.len() as u32 + 7;
    if !are_due(over, ops.as_slice()) {
        return Err(Refusal::Fault(CFault::Line { line }));
    }
    let Some(rest) = after(Part::Return, rest) else {
        return Err(Refusal::Fault(CFault::Line { line }));
    };
    let Some(rest) = after(Part::Close, rest) else {
        return Err(Refusal::Fault(CFault::Line { line: line + 1 }));
    };
    if rest.is_empty() {
        Ok(ops)
    } else {
        Err(Refusal::Fault(CFault::Line { line: line + 2 }))
    }
}

/// Whether the names of the third line are due: those of over-drive only where an access awaits it.
fn are_due(over: bool, ops: &[Op]) -> bool
    ensures { result ≡ (not over || awaits_over ops.now) }
{
    !over || awaits_over(ops)
}

/// What follows the six lines before those of the accesses, and whether the third names the timeouts of over-drive.
fn after_frame(text: &[u8]) -> Result<(bool, &[u8]), Refusal<CFault>>
    ensures found { IfOk result (λ x. text.now ≡ concat (frame x.0) ++ x.1.now) }
    ensures refused { IfErr result (λ e. IfFault e (Refuses text.now)) }
{
    let mut over = false;
    let mut rest = text;
    for place in 0..6 {
        match frame_line_at(over, place, rest) {
            Some((names, others)) => {
                over = names;
                rest = others;
            }
            None => {
                return Err(Refusal::Fault(CFault::Line {
                    line: place as u32 + 1,
                }));
            }
        }
    }
    Ok((over, rest))
}

/// The accesses whose lines a text begins with, as many as there are that the third line of the frame allows, and what
/// follows them.
fn ops_in(alloc: Global, over: bool, text: &[u8]) -> Result<(Vec<Op>, &[u8]), OutOfMemory>
    ensures { IfOk result (λ x. TakesOps over text.now x.0.items x.1.now) }
{
    let mut ops = Vec::new(alloc);
    let mut rest = text;
    while let Some((op, others)) = op_within(over, rest) {
        ops.push(op)?;
        rest = others;
    }
    Ok((ops, rest))
}
