//! Where the lines of a text begin.
ghost use Rattle.std.specs.Prelude.{◌≡◌, ◌+◌, ◌<◌, ◌==◌, count_by, length, take, IfNone, IfSome};
ghost use Rattle.ioc_without.specs.Starts.{AreWhole, IsStart, SaysNothing};

/// The place at which a line begins, unless it ends there too.
fn some_start(text: &[u8], at: usize, _number: usize) -> Option<usize>
    requires inside { at < length text.now }
    requires whole { AreWhole (take at text.now) }
    requires before { count_by (λ b. b == 10) (take at text.now) + 1 ≡ _number }
    ensures start { IfSome result (λ place. IsStart text.now _number place) }
    ensures nothing { IfNone result (SaysNothing text.now _number) }
{
    if text[at] == b'\n' { None } else { Some(at) }
}

/// The place at which the line of this number begins, unless it is empty or not there.
pub(crate) fn line_start(text: &[u8], number: usize) -> Option<usize>
    ensures start { IfSome result (λ at. IsStart text.now number at) }
    ensures nothing { IfNone result (SaysNothing text.now number) }
{
    let mut line = 1;
    let mut begins = true;
    for at in 0..text.len() {
        if begins && line == number {
            return some_start(text, at, number);
        }
        if text[at] == b'\n' {
            line += 1;
            begins = true;
        } else {
            begins = false;
        }
    }
    None
}
