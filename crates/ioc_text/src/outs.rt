//! Lines that are left out, by their numbers.
ghost use Rattle.std.specs.Prelude.{◌≡◌, ◌++◌, ◌∷◌, [], IfOk, map};
ghost use Rattle.std.specs.Option.{option_copied};
ghost use Rattle.ioc_text.specs.Outs.{is_out, kept, unless_out};

use crate::line::Line;
use std::alloc::{AllocError, Global};

fn is_out(outs: &[u32], line: &Line) -> bool
    ensures { result ≡ is_out outs.now line.now }
{
    outs.iter().any(|number| line.number == *number)
}

/// A line that is found, unless it is left out.
pub(crate) fn unless_out<'l>(outs: &[u32], found: Option<&'l Line>) -> Option<&'l Line>
    ensures { option_copied result ≡ unless_out outs.now (option_copied found.entry) }
{
    match found {
        None => None,
        Some(line) => { if is_out(outs, line) { None } else { Some(line) } }
    }
}

/// The lines that are not left out.
pub(crate) fn kept<'l>(
    alloc: Global,
    outs: &[u32],
    lines: &'l [Line],
) -> Result<Vec<&'l Line>, AllocError>
    ensures { IfOk result (λ v. map (λ line. line.now) v.items ≡ kept outs.now lines.now) }
{
    let mut out = Vec::with_capacity(alloc, lines.len())?;
    for line in lines {
        if !is_out(outs, line) {
            out.push(line)?;
        }
    }
    Ok(out)
}

/// These numbers and one more.
pub(crate) fn with_out(alloc: Global, outs: &[u32], number: u32) -> Result<Vec<u32>, AllocError>
    ensures { IfOk result (λ v. v.items ≡ outs.now ++ number ∷ []) }
{
    let mut more = Vec::from_slice(alloc, outs)?;
    more.push(number)?;
    Ok(more)
}
