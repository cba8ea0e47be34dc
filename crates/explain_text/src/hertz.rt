//! Numbers of hertz, and ranges of them.
ghost use Rattle.std.specs.Prelude.{◌≡◌, ◌++◌, decimal, IfOk, OnOk, string_bytes};
ghost use Rattle.explain_text.specs.Names.{hertz_text, range_text};

use res_base::Ratio;
use res_model::Range;
use std::alloc::{AllocError, Global};

/// Appends a word and a number after it.
pub(crate) fn put_number(
    alloc: Global,
    line: &mut String,
    word: &str,
    n: u64,
) -> Result<(), AllocError>
    ensures { OnOk result (string_bytes line.new ≡ string_bytes line.old ++ word.now ++ decimal n) }
{
    line.push_str(word)?;
    let digits = n.to_string(alloc)?;
    line.push_str(digits.as_str())
}

/// A number of hertz: its floor, and that it is above it where it is no whole number.
#[tactic(auto, unfolding(crate::specs::Names::hertz_text))]
pub(crate) fn hertz_text(alloc: Global, x: &Ratio) -> Result<String, AllocError>
    ensures { IfOk result (λ s. string_bytes s ≡ hertz_text x.now) }
{
    let floor = x.floor();
    if x.at_most_whole(floor) {
        return floor.to_string(alloc);
    }
    let mut text = String::from_str(alloc, "above ")?;
    let digits = floor.to_string(alloc)?;
    text.push_str(digits.as_str())?;
    Ok(text)
}

/// A range: one number alone where its ends are equal.
#[tactic(auto, unfolding(crate::specs::Names::range_text))]
pub(crate) fn range_text(alloc: Global, r: &Range) -> Result<String, AllocError>
    ensures { IfOk result (λ s. string_bytes s ≡ range_text r.now) }
{
    if r.most.at_most(&r.least) {
        return hertz_text(alloc, &r.least);
    }
    let mut text = hertz_text(alloc, &r.least)?;
    let most = hertz_text(alloc, &r.most)?;
    text.push_str(" to ")?;
    text.push_str(most.as_str())?;
    Ok(text)
}
