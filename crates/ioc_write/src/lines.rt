//! The lines of a text, with their ends.
ghost use Rattle.std.specs.Prelude.{◌≡◌, ◌==◌, ◌<◌, ◌∷◌, length, position};
ghost use Rattle.std.specs.Str.Lines.{strip_carriage_return};
ghost use Rattle.ioc_lines.specs.Lines.{ending, text_line, text_lines};

fn newline_at(text: &[u8]) -> Option<usize>
    ensures { result ≡ position (λ b. b == 10) text.now }
{
    text.iter().position(|b| *b == b'\n')
}

/// What stands before a line's LF, without the CR that belongs to the line's end.
fn without_return(bytes: &[u8]) -> &[u8]
    ensures { result.now ≡ strip_carriage_return bytes.now }
{
    match bytes {
        [prefix @ .., b'\r'] => prefix,
        _ => bytes,
    }
}

/// What ends the line of these bytes before an LF.
fn ending(bytes: &[u8]) -> &'static [u8]
    ensures { result.now ≡ ending bytes.now }
{
    match bytes {
        [.., b'\r'] => b"\r\n",
        _ => b"\n",
    }
}

/// The first line of a text that is not empty: what it says, what ends it, and what follows.
pub(crate) fn first_line(text: &[u8]) -> (&[u8], &[u8], &[u8])
    requires { 0 < length text.now }
    ensures lines { text_lines text.now ≡ text_line result.0.now result.1.now ∷ text_lines result.2.now }
    ensures shorter { length result.2.now < length text.now }
{
    match newline_at(text) {
        None => (text, &[], &[]),
        Some(at) => {
            let part = &text[..at];
            (without_return(part), ending(part), &text[at + 1..])
        }
    }
}
