//! The ops that set up the PLLI2S.
ghost use Rattle.std.specs.Prelude.{◌≡◌};
ghost use Rattle.i2s_pll.specs.Choices.{IsChoice};
ghost use Rattle.i2s_pll.specs.Run.{writes_of};

use crate::choice::I2s;
use crate::op::I2sOp;
use crate::step::word_of;

/// The ops of a choice: RCC_PLLI2SCFGR with its N and R, PLLI2SON, and the await of PLLI2SRDY.
pub fn i2s_writes(x: &I2s) -> [I2sOp; 3]
    requires { IsChoice x.now }
    ensures { result ≡ writes_of x.now }
{
    [
        I2sOp::Config(word_of(x.n, x.r)),
        I2sOp::On,
        I2sOp::Await { polls: 10_000 },
    ]
}
