//! The lines that have a named key, or the first that is faulty.
ghost use Rattle.std.specs.Prelude.{◌≡◌, ◌+◌, ◌<◌, ◌^◌, [], ◌∷◌, Some, length};
ghost use Rattle.refusal.specs.Refusals.{Gives};
ghost use Rattle.ioc_text.specs.Lines.{equals_at, is_quiet, divided, with_key, with_value, undone, line_of, ioc_of};
ghost use Rattle.ioc_text.specs.Index.{first_fault};

use crate::escapes::{equals_at, undo_into};
use crate::fault::IocFault;
use crate::ioc::Ioc;
use crate::keys::is_named;
use crate::line::Line;
use crate::lines::first_line;
use refusal::Refusal;
use res_base::Items;
use std::alloc::Global;

/// The line of a named key, whose value is read.
fn with_value(
    alloc: Global,
    number: u32,
    key: &[u8],
    bytes: &[u8],
) -> Result<Option<Line>, Refusal<IocFault>>
    ensures { Gives (λ line. line) result (with_value number key.now (undone bytes.now)) }
{
    let mut value = Vec::with_capacity(alloc, bytes.len())?;
    if !undo_into(&mut value, bytes)? {
        return Err(Refusal::Fault(IocFault::BadEscape { line: number }));
    }
    Ok(Some(Line {
        number,
        key: Items::of(Vec::from_slice(alloc, key)?),
        value: Items::of(value),
    }))
}

/// What a line says with this key and value. `scratch` takes the key with its escapes undone.
fn with_key(
    alloc: Global,
    scratch: &mut Vec<u8>,
    number: u32,
    key: &[u8],
    value: &[u8],
) -> Result<Option<Line>, Refusal<IocFault>>
    ensures { Gives (λ line. line) result (with_key number (undone key.now) value.now) }
{
    if !undo_into(scratch, key)? {
        return Ok(None);
    }
    if !is_named(scratch.as_slice()) {
        return Ok(None);
    }
    with_value(alloc, number, scratch.as_slice(), value)
}

/// It is empty, or begins with `#`.
fn is_quiet(bytes: &[u8]) -> bool
    ensures { result ≡ is_quiet bytes.now }
{
    match bytes {
        [] => true,
        [b, ..] => *b == b'#',
    }
}

/// What the line of this number says by itself.
#[tactic(auto, unfolding(crate::specs::Lines::line_of))]
fn line_of(
    alloc: Global,
    scratch: &mut Vec<u8>,
    number: u32,
    bytes: &[u8],
) -> Result<Option<Line>, Refusal<IocFault>>
    ensures { Gives (λ line. line) result (line_of number bytes.now) }
{
    if bytes.len() > 65535 {
        return Err(Refusal::Fault(IocFault::LongLine { line: number }));
    }
    if is_quiet(bytes) {
        return Ok(None);
    }
    match equals_at(bytes) {
        None => Err(Refusal::Fault(IocFault::NoEquals { line: number })),
        Some(at) => with_key(alloc, scratch, number, &bytes[..at], &bytes[at + 1..]),
    }
}

/// The fault of the first faulty line: that of the first repeated key in the lines before, or else this one.
fn refused(alloc: Global, lines: Vec<Line>, fault: IocFault) -> Result<Ioc, Refusal<IocFault>>
    ensures { Gives (λ ioc. ioc) result (first_fault lines.items fault) }
{
    Ioc::of(alloc, lines)?;
    Err(Refusal::Fault(fault))
}

/// Reads the lines of a project's text that have a named key, or the fault of its first faulty line.
///
/// Reading stops at a line with a fault of its own. Whether a key stands twice is asked once, of all lines up to there.
#[tactic(auto, unfolding(crate::specs::Lines::ioc_of, crate::specs::Lines::with_line))]
pub fn read_ioc(alloc: Global, text: &[u8]) -> Result<Ioc, Refusal<IocFault>>
    requires { length text.now < 2 ^ 32 }
    ensures { Gives (λ ioc. ioc) result (ioc_of text.now) }
{
    let mut lines = Vec::new(alloc);
    let mut scratch = Vec::new(alloc);
    let mut rest = text;
    let mut number = 0u32;
    'read: while !rest.is_empty() {
        let (bytes, others) = first_line(rest);
        rest = others;
        number += 1;
        match line_of(alloc, &mut scratch, number, bytes) {
            Ok(Some(line)) => lines.push(line)?,
            Ok(None) => {}
            Err(Refusal::Fault(fault)) => return refused(alloc, lines, fault),
            Err(Refusal::OutOfMemory) => return Err(Refusal::OutOfMemory),
        }
    }
    Ioc::of(alloc, lines)
}
