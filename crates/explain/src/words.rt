//! How a thing is called.
ghost use Rattle.std.specs.Prelude.{◌≡◌, ◌-◌, ◌++◌, [], decimal, IfOk, OnOk, string_bytes, slice_index_or};
ghost use Rattle.res_model.specs.Placed.{is_held};
ghost use Rattle.explain.specs.Things.{at_words, free_word, free_words, held_words, hertz_or, home_name, lock_words, need_words, number_words, pin_words, words_of};

use crate::kinds::Thing;
use explain_text::pin_name;
use res_base::Text;
use res_model::{Free, Opts, Signal, TableParts};
use std::alloc::{AllocError, Global};

/// Appends a word and a number after it.
pub(crate) fn put_number(
    alloc: Global,
    line: &mut String,
    word: &str,
    n: u64,
) -> Result<(), AllocError>
    ensures { OnOk result (string_bytes line.new ≡ string_bytes line.old ++ word.now ++ decimal n) }
{
    line.push_str(word)?;
    let digits = n.to_string(alloc)?;
    line.push_str(digits.as_str())
}

/// The name of a need, by its number from 1.
fn name_of(needs: &[Text], number: usize) -> &str
    ensures { result.now ≡ slice_index_or needs.now (number - 1) [] }
{
    match needs.get(number.saturating_sub(1)) {
        None => "",
        Some(name) => name.as_str(),
    }
}

#[tactic(auto, unfolding(crate::specs::Things::need_words))]
fn need_words(alloc: Global, needs: &[Text], number: usize) -> Result<String, AllocError>
    ensures { IfOk result (λ x. string_bytes x ≡ need_words needs.now number) }
{
    let mut words = String::new(alloc);
    put_number(alloc, &mut words, "need ", number as u64)?;
    words.push_str(" ")?;
    words.push_str(name_of(needs, number))?;
    Ok(words)
}

fn hertz_or(hertz: Option<u64>) -> u64
    ensures { result ≡ hertz_or hertz }
{
    match hertz {
        None => 0,
        Some(hertz) => hertz,
    }
}

#[tactic(auto, unfolding(crate::specs::Things::number_words))]
fn number_words(alloc: Global, option: &str, hertz: u64) -> Result<String, AllocError>
    ensures { IfOk result (λ x. string_bytes x ≡ number_words option.now hertz) }
{
    let mut words = String::new(alloc);
    put_number(alloc, &mut words, option, hertz)?;
    Ok(words)
}

fn free_word(free: Free) -> &'static str
    ensures { result.now ≡ free_word free }
{
    match free {
        Free::All => "all",
        Free::Pins => "pins",
        Free::Clock => "clock",
        Free::Nothing => "none",
    }
}

#[tactic(auto, unfolding(crate::specs::Things::free_words))]
fn free_words(alloc: Global, free: Free) -> Result<String, AllocError>
    ensures { IfOk result (λ x. string_bytes x ≡ free_words free) }
{
    let mut words = String::from_str(alloc, "--free ")?;
    words.push_str(free_word(free))?;
    Ok(words)
}

/// The pin at which a signal is in the project.
fn home_name<'t>(t: &'t TableParts, signal: &Signal) -> &'t str
    ensures { result.now ≡ home_name t.now signal.now }
{
    match signal.home {
        None => "",
        Some(home) => pin_name(t, home),
    }
}

#[tactic(auto, unfolding(crate::specs::Things::lock_words))]
fn lock_words(alloc: Global, t: &TableParts, signal: &Signal) -> Result<String, AllocError>
    ensures { IfOk result (λ x. string_bytes x ≡ lock_words t.now signal.now) }
{
    let mut words = String::from_str(alloc, home_name(t, signal))?;
    words.push_str(".Locked=true")?;
    Ok(words)
}

#[tactic(auto, unfolding(crate::specs::Things::held_words))]
fn held_words(alloc: Global, pin: &str) -> Result<String, AllocError>
    ensures { IfOk result (λ x. string_bytes x ≡ held_words pin.now) }
{
    let mut words = String::from_str(alloc, "held pin ")?;
    words.push_str(pin)?;
    Ok(words)
}

#[tactic(auto, unfolding(crate::specs::Things::at_words))]
fn at_words(alloc: Global, name: &str, pin: &str) -> Result<String, AllocError>
    ensures { IfOk result (λ x. string_bytes x ≡ at_words name.now pin.now) }
{
    let mut words = String::from_str(alloc, name)?;
    words.push_str(" at ")?;
    words.push_str(pin)?;
    Ok(words)
}

/// Whether a name is that of a pin that is only held.
#[tactic(auto, unfolding(res_model::specs::Placed::is_held))]
fn is_held(name: &str) -> bool
    ensures { result ≡ is_held name.now }
{
    name.as_bytes() == b"-".as_slice()
}

fn pin_words(alloc: Global, t: &TableParts, signal: &Signal) -> Result<String, AllocError>
    ensures { IfOk result (λ x. string_bytes x ≡ pin_words t.now signal.now) }
{
    let name = signal.name.as_str();
    if is_held(name) {
        held_words(alloc, home_name(t, signal))
    } else {
        at_words(alloc, name, home_name(t, signal))
    }
}

/// How a thing is called.
pub(crate) fn words_of(
    alloc: Global,
    t: &TableParts,
    opts: &Opts,
    signals: &[Signal],
    thing: Thing,
) -> Result<String, AllocError>
    ensures { IfOk result (λ x. string_bytes x ≡ words_of t.now opts.now signals.now thing) }
{
    match thing {
        Thing::Need { number } => need_words(alloc, opts.needs.as_slice(), number),
        Thing::Hclk => number_words(alloc, "--hclk ", hertz_or(opts.hclk)),
        Thing::Pclk1 => number_words(alloc, "--pclk1 ", hertz_or(opts.pclk1)),
        Thing::Pclk2 => number_words(alloc, "--pclk2 ", hertz_or(opts.pclk2)),
        Thing::Freed => free_words(alloc, opts.free),
        Thing::Keep { .. } => String::from_str(alloc, "KeepUserPlacement=true"),
        Thing::Lock { signal, .. } => match signals.get(signal) {
            None => Ok(String::new(alloc)),
            Some(signal) => lock_words(alloc, t, signal),
        },
        Thing::Pin { signal, .. } => match signals.get(signal) {
            None => Ok(String::new(alloc)),
            Some(signal) => pin_words(alloc, t, signal),
        },
    }
}
