//! A text without one of its lines.
ghost use Rattle.std.specs.Prelude.{◌≡◌, ◌<◌, length, IfOk, slice_set};
ghost use Rattle.ioc_without.specs.Starts.{IsWithout};

use crate::starts::line_start;
use res_base::OutOfMemory;
use std::alloc::Global;

/// The text whose byte at a place is `#`, so that a line that begins there is a remark.
fn remarked(alloc: Global, text: &[u8], at: usize) -> Result<Vec<u8>, OutOfMemory>
    requires { at < length text.now }
    ensures { IfOk result (λ x. x.items ≡ slice_set text.now at 35) }
{
    let mut left = Vec::from_slice(alloc, text)?;
    left[at] = b'#';
    Ok(left)
}

/// The same text.
fn copied(alloc: Global, text: &[u8]) -> Result<Vec<u8>, OutOfMemory>
    ensures { IfOk result (λ x. x.items ≡ text.now) }
{
    let same = Vec::from_slice(alloc, text)?;
    Ok(same)
}

/// A text without the line of this number. The line is made a remark, so that the others keep their numbers.
pub fn text_without(alloc: Global, text: &[u8], number: u32) -> Result<Vec<u8>, OutOfMemory>
    ensures { IfOk result (λ left. IsWithout text.now number left.items) }
{
    match line_start(text, number as usize) {
        None => copied(alloc, text),
        Some(at) => remarked(alloc, text, at),
    }
}
