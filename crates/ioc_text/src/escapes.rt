//! The `=` of a line, and escapes.
ghost use Rattle.std.specs.Prelude.{◌≡◌, ◌<◌, false, length, IfSome, MatchResult, MatchBool, ⊤, if◌then◌else◌};
ghost use Rattle.ioc_text.specs.Lines.{is_escapable, equals_at, undone};
ghost use Rattle.std.specs.Prelude.{Some, None};

use std::alloc::AllocError;

/// The place of the `=` that divides a line's key and value.
#[tactic(auto, unfolding(crate::specs::Lines::equals_at, crate::specs::Lines::equals_from))]
pub fn equals_at(line: &[u8]) -> Option<usize>
    ensures place { result ≡ equals_at line.now }
    ensures within { IfSome result (λ at. at < length line.now) }
{
    let mut in_pair = false;
    for (at, b) in line.iter().enumerate() {
        if in_pair {
            in_pair = false;
        } else if *b == b'=' {
            return Some(at);
        } else {
            in_pair = *b == b'\\';
        }
    }
    None
}

fn is_escapable(b: u8) -> bool
    ensures { result ≡ is_escapable b }
{
    b == b' ' || b == b'\\' || b == b':' || b == b'=' || b == b'#' || b == b'!'
}

/// Leaves the bytes with escapes undone in `out`, and answers whether each escape is known.
#[tactic(auto, unfolding(crate::specs::Lines::undone, crate::specs::Lines::undone_from))]
pub fn undo_into(out: &mut Vec<u8>, bytes: &[u8]) -> Result<bool, AllocError>
    ensures { MatchResult result (λ known. undone bytes.now ≡ (if known then Some out.new.items else None)) (λ _. ⊤) }
{
    out.clear();
    let mut in_pair = false;
    for b in bytes {
        if in_pair {
            if !is_escapable(*b) {
                return Ok(false);
            }
            out.push(*b)?;
            in_pair = false;
        } else if *b == b'\\' {
            in_pair = true;
        } else {
            out.push(*b)?;
        }
    }
    Ok(!in_pair)
}
