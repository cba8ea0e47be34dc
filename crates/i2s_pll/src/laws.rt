//! Laws of the PLLI2S: functions that do nothing, whose contracts are the laws.
ghost use Rattle.i2s_pll.specs.declared.choice.I2s.{I2s};
ghost use Rattle.i2s_pll.specs.Choices.{IsChoice, Meets};
ghost use Rattle.i2s_pll.specs.Run.{AreSound, writes_of};
ghost use Rattle.i2s_pll.specs.Texts.{HoldsDivider, prescaler_word};
ghost use Rattle.res_model.specs.Clock.{vco_in_of};
ghost use Rattle.res_model.specs.declared.clock.ClockChoice.{ClockChoice};
ghost use Rattle.res_model.specs.declared.clock.Facts.{Facts};

use res_model::Tables;

/// A choice that keeps the limits of a table fits the registers, and its writes are sound: from reset and for every list of flags none is forbidden, every state
/// is legal, and they end done, with I2SCLK as the choice has it, or timed out; where each flag comes, they end done.
pub fn writes_are_sound(t: &Tables)
    ensures fits { (f : Facts) (home : ClockChoice) (x : I2s) → Meets t.now f home x → IsChoice x }
    ensures sound { (f : Facts) (home : ClockChoice) (x : I2s) → Meets t.now f home x → AreSound t.now.limits (vco_in_of f home) x (writes_of x) }
{
    t.keeps_rules();
}

/// SPI_I2SPR of a choice (RM0090): MCKOE in bit 9 is set, ODD is in bit 8 and DIV in bits 7 to 0, and no bit is set above.
pub fn prescaler_holds_the_divider()
    ensures { (x : I2s) → IsChoice x → HoldsDivider (prescaler_word x) x }
{}
