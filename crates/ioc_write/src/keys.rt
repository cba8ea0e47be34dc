//! The key of a line, and the pin part of a key.
ghost use Rattle.std.specs.Prelude.{◌≡◌, ◌==◌, ◌<◌, if◌then◌else◌, Some, None, IfOk, IfSome, length, option_map};
ghost use Rattle.ioc_text.specs.Lines.{is_quiet};
ghost use Rattle.ioc_lines.specs.Lines.{Keyed, keyed, keyed_at, last_dot, pin_part, rest_from};

use ioc_text::{equals_at, undo_into};
use res_base::OutOfMemory;

/// It is empty, or begins with `#`.
fn is_quiet(bytes: &[u8]) -> bool
    ensures { result ≡ is_quiet bytes.now }
{
    match bytes {
        [] => true,
        [b, ..] => *b == b'#',
    }
}

/// The place of the `=` of a line with a key. The key, with escapes undone, is left in `key`.
#[tactic(auto, unfolding(ioc_lines::specs::Lines::keyed))]
pub(crate) fn key_into(key: &mut Vec<u8>, bytes: &[u8]) -> Result<Option<usize>, OutOfMemory>
    ensures keyed { IfOk result (λ at. keyed bytes.now ≡ option_map (keyed_at key.new.items) at) }
    ensures within { IfOk result (λ at. IfSome at (λ k. k < length bytes.now)) }
{
    if is_quiet(bytes) {
        return Ok(None);
    }
    let Some(at) = equals_at(bytes) else {
        return Ok(None);
    };
    if undo_into(key, &bytes[..at])? {
        Ok(Some(at))
    } else {
        Ok(None)
    }
}

/// This place, where a dot stands there; else the one before.
fn dot_or(last: Option<usize>, at: usize, b: u8) -> Option<usize>
    ensures { result ≡ (if b == 46 then Some at else last) }
{
    if b == b'.' { Some(at) } else { last }
}

/// The place of the last dot.
pub(crate) fn last_dot(bytes: &[u8]) -> Option<usize>
    ensures place { result ≡ last_dot bytes.now }
    ensures within { IfSome result (λ at. at < length bytes.now) }
{
    let mut last = None;
    for (at, b) in bytes.iter().enumerate() {
        last = dot_or(last, at, *b);
    }
    last
}

/// What stands before the last dot of a key.
#[tactic(auto, unfolding(ioc_lines::specs::Lines::pin_part))]
pub(crate) fn pin_part(key: &[u8]) -> &[u8]
    ensures { result.now ≡ pin_part key.now }
{
    match last_dot(key) {
        Some(at) => &key[..at],
        None => &[],
    }
}
