//! What is answered for a sample rate.
ghost use Rattle.std.specs.Prelude.{◌≡◌, ◌<◌, ◌≤◌, ◌^◌, IfOk};
ghost use Rattle.res_base.specs.Fraction.{over, whole};
ghost use Rattle.res_model.specs.Clock.{IsBetween, IsInRange};
ghost use Rattle.i2s_pll.specs.Choices.{IsChoice};
ghost use Rattle.i2s_pll.specs.Due.{OfI2s};
ghost use Rattle.i2s_pll.specs.Least.{IsLeast};
ghost use Rattle.i2s_pll.specs.Texts.{i2s_text};

use crate::choice::I2s;
use crate::input::{Input, input_of};
use crate::laws::writes_are_sound;
use crate::lines::{
    divider_words, error_line, i2sclk_line, pll_words, put_ops, put_prescaler_line, rate_line,
};
use crate::search::best_i2s;
use crate::writes::i2s_writes;
use answers::{Answer, Status, says};
use res_base::{Items, OutOfMemory};
use res_model::{ClockChoice, Facts, Tables};
use std::alloc::Global;

/// The choice of least error for a sample rate in hertz, or that no choice keeps the limits.
///
/// Done: the choice, I2SCLK and the sample rate in whole hertz, the error in whole thousandths of a hertz, the register
/// SPI_I2SPR, and the C lines that set up the PLLI2S. No choice: the line `no choice`.
pub fn i2s_answer(
    alloc: Global,
    t: &Tables,
    f: &Facts,
    home: &ClockChoice,
    rate: u32,
) -> Result<Answer, OutOfMemory>
    requires rate { IsBetween 8000 192000 rate }
    requires home { IsInRange home.now }
    requires hse { f.now.hse_hz < 2 ^ 32 }
    ensures { IfOk result (λ a. OfI2s t.now f.now home.now rate a) }
{
    match best_i2s(t, f, home, rate) {
        None => says(alloc, Status::NoChoice, "no choice"),
        Some(x) => found(alloc, t, f, home, rate, x),
    }
}

/// What is answered where a choice is the least.
fn found(
    alloc: Global,
    t: &Tables,
    f: &Facts,
    home: &ClockChoice,
    rate: u32,
    x: I2s,
) -> Result<Answer, OutOfMemory>
    requires rate { IsBetween 8000 192000 rate }
    requires home { IsInRange home.now }
    requires hse { f.now.hse_hz < 2 ^ 32 }
    requires least { IsLeast t.now f.now home.now rate x }
    ensures { IfOk result (λ a. OfI2s t.now f.now home.now rate a) }
{
    writes_are_sound(t);
    let i = input_of(f, home);
    let text = i2s_text(alloc, i, rate, x)?;
    Ok(Answer {
        status: Status::Done,
        text: Items::of(text),
    })
}

/// The lines of a choice.
#[tactic(auto, unfolding(crate::specs::Texts::i2s_text))]
pub(crate) fn i2s_text(alloc: Global, i: Input, rate: u32, x: I2s) -> Result<Vec<u8>, OutOfMemory>
    requires rate { rate ≤ 192000 }
    requires choice { IsChoice x }
    ensures { IfOk result (λ s. s.items ≡ i2s_text (over (whole i.hertz) i.m) rate x) }
{
    let pll = pll_words(alloc, x)?;
    let divider = divider_words(alloc, x)?;
    let clock = i2sclk_line(alloc, i, x)?;
    let given = rate_line(alloc, i, x)?;
    let error = error_line(alloc, i, rate, x)?;
    let mut out = Vec::from_slice(alloc, pll.as_bytes())?;
    out.extend_from_slice(divider.as_bytes())?;
    out.extend_from_slice(clock.as_bytes())?;
    out.extend_from_slice(given.as_bytes())?;
    out.extend_from_slice(error.as_bytes())?;
    put_prescaler_line(&mut out, x)?;
    put_ops(alloc, &mut out, &i2s_writes(&x))?;
    Ok(out)
}
