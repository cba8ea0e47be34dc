//! Decimal numbers, from text and to text.
ghost use Rattle.std.specs.Prelude.{◌≡◌, ◌≢◌, ◌++◌, ℕ, ◌<◌, ◌^◌, decimal, IfSome, IfNone, OnOk, OnErr};

use crate::memory::OutOfMemory;
use std::alloc::Global;

/// The number of 1 to 20 decimal digits with no leading zero before another digit, if it is a u64.
pub fn parse_dec(text: &[u8]) -> Option<u64>
    ensures some { IfSome result (λ n. text.now ≡ decimal n) }
    ensures none { IfNone result ((n : ℕ) → n < 2 ^ 64 → text.now ≢ decimal n) }
{
    let Ok(text) = std::str::from_utf8(text) else {
        return None;
    };
    let Ok(number) = text.parse::<u64>() else {
        return None;
    };
    let mut buffer = itoa::Buffer::new();
    if buffer.format(number) == text {
        Some(number)
    } else {
        None
    }
}

/// Appends the digits of a number.
pub fn put_dec(alloc: Global, out: &mut Vec<u8>, n: u64) -> Result<(), OutOfMemory>
    ensures ok { OnOk result (out.new.items ≡ out.old.items ++ decimal n) }
    ensures err { OnErr result (out.new.items ≡ out.old.items) }
{
    let digits = n.to_string(alloc)?;
    out.extend_from_slice(digits.as_bytes())?;
    Ok(())
}
