//! The first line of a text, and the first field of a line.
ghost use Rattle.std.specs.Prelude.{◌≡◌, ◌==◌, ◌+◌, ◌<◌, ◌≤◌, ◌++◌, ◌∷◌, length, position, true, IfSome, IfNone};
ghost use Rattle.std.specs.Option.{option_copied};
ghost use Rattle.text_lines.specs.Lines.{HasNoEnd, bytes_of, fields, lines_of, more_fields};

/// The first line of a text that is not empty, whether it has an end, and what follows it.
pub fn first_line(text: &[u8]) -> (&[u8], bool, &[u8])
    requires { 0 < length text.now }
    ensures line { lines_of text.now ≡ record { text = result.0.now; ended = result.1 } ∷ lines_of result.2.now }
    ensures bytes { text.now ≡ bytes_of (record { text = result.0.now; ended = result.1 }) ++ result.2.now }
    ensures shorter { 1 + length result.2.now ≤ length text.now }
{
    match place_of(b'\n', text) {
        Some(at) => (&text[..at], true, &text[at + 1..]),
        None => (text, false, &[]),
    }
}

/// The first line, if it has an end, and what follows it.
pub fn ended_line(text: &[u8]) -> Option<(&[u8], &[u8])>
    ensures line { IfSome result (λ x. lines_of text.now ≡ record { text = x.0.now; ended = true } ∷ lines_of x.1.now) }
    ensures shorter { IfSome result (λ x. 1 + length x.1.now ≤ length text.now) }
    ensures none { IfNone result (HasNoEnd (lines_of text.now)) }
{
    if text.is_empty() {
        return None;
    }
    let (line, ended, rest) = first_line(text);
    if ended { Some((line, rest)) } else { None }
}

/// The field before the first space, and what follows the space where there is one.
pub fn first_field(text: &[u8]) -> (&[u8], Option<&[u8]>)
    ensures field { fields text.now ≡ result.0.now ∷ more_fields (option_copied result.1) }
{
    match place_of(b' ', text) {
        Some(at) => (&text[..at], Some(&text[at + 1..])),
        None => (text, None),
    }
}

/// The place of the first such byte.
fn place_of(byte: u8, text: &[u8]) -> Option<usize>
    ensures { result ≡ position (λ b. b == byte) text.now }
{
    text.iter().position(|b| *b == byte)
}
