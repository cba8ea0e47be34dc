//! The part of a file that is read as a C text.
ghost use Rattle.std.specs.Prelude.{◌≡◌, ◌-◌, ◌≤◌, ◌++◌, ℕ, List, length, take};
ghost use Rattle.text_lines.specs.Lines.{lines_of};
ghost use Rattle.trace_answer.specs.Part.{part_in, to_close};

use text_lines::first_line;

/// How many bytes there are to the end of the first line that closes a block, or of all lines where none does.
fn close_at(text: &[u8]) -> usize
    ensures close { take result text.now ≡ to_close (lines_of text.now) }
    ensures within { result ≤ length text.now }
{
    let mut rest = text;
    'lines: while !rest.is_empty() {
        let (line, _ended, others) = first_line(rest);
        if line == b"}".as_slice() {
            return text.len() - others.len();
        }
        rest = others;
    }
    text.len()
}

/// The bytes of a text of which others follow the first line, to the first of their lines that closes a block.
fn closed<'t>(text: &'t [u8], others: &[u8]) -> &'t [u8]
    requires { length others.now ≤ length text.now }
    ensures closed { (line : List ℕ) → text.now ≡ line ++ others.now → result.now ≡ line ++ to_close (lines_of others.now) }
    ensures within { length result.now ≤ length text.now }
{
    let first = text.len() - others.len();
    &text[..first + close_at(others)]
}

/// The part of a file that is read as a C text, and how many lines stand before it.
pub(crate) fn part_of(text: &[u8]) -> (usize, &[u8])
    ensures part { record { before = result.0; text = result.1.now } ≡ part_in text.now }
    ensures shorter { length result.1.now ≤ length text.now }
    ensures before { result.0 ≤ length text.now }
{
    let mut rest = text;
    let mut before = 0usize;
    'lines: while !rest.is_empty() {
        let (line, _ended, others) = first_line(rest);
        if line == b"#include <stdint.h>".as_slice() {
            return (before, closed(rest, others));
        }
        rest = others;
        before += 1;
    }
    (before, &[])
}
