//! The flags of an answer, as letters.
ghost use Rattle.std.specs.Prelude.{◌≡◌};
ghost use Rattle.reg_trace.specs.Reading.{flags_of, has_letter, letters_of, past_letter};
ghost use Rattle.reg_machine.specs.Run.{silent};

use reg_machine::Answer;

/// Whether a text begins with a letter, and what follows the letter.
fn letter(letter: u8, text: &[u8]) -> (bool, &[u8])
    ensures there { result.0 ≡ has_letter letter text.now }
    ensures rest { result.1.now ≡ past_letter letter text.now }
{
    if !text.is_empty() && text[0] == letter {
        (true, &text[1..])
    } else {
        (false, text)
    }
}

/// The flags whose letters a text begins with, in their order, and what follows them.
#[tactic(auto, unfolding(crate::specs::Reading::letters_of))]
fn letters_of(text: &[u8]) -> (Answer, &[u8])
    ensures { (result.0, result.1.now) ≡ letters_of text.now }
{
    let (hse, rest) = letter(b'h', text);
    let (pll, rest) = letter(b'p', rest);
    let (latency, rest) = letter(b'l', rest);
    let (switch, rest) = letter(b's', rest);
    let (over, rest) = letter(b'o', rest);
    let (over_switch, rest) = letter(b'w', rest);
    let answer = Answer {
        hse,
        pll,
        latency,
        switch,
        over,
        over_switch,
    };
    (answer, rest)
}

/// No flag.
pub(crate) fn silent() -> Answer
    ensures { result ≡ silent }
{
    Answer {
        hse: false,
        pll: false,
        latency: false,
        switch: false,
        over: false,
        over_switch: false,
    }
}

/// The flags that a field says.
#[tactic(auto, unfolding(crate::specs::Reading::flags_of))]
pub(crate) fn flags_of(field: &[u8]) -> Option<Answer>
    ensures { result ≡ flags_of field.now }
{
    if field == b"-".as_slice() {
        return Some(silent());
    }
    if field.is_empty() {
        return None;
    }
    let (answer, rest) = letters_of(field);
    if rest.is_empty() { Some(answer) } else { None }
}
