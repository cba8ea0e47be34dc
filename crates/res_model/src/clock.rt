//! The plain data of the clock tree.
ghost use Rattle.std.specs.Prelude.{◌≡◌};
ghost use Rattle.res_model.specs.ClockValues.{source_of, source_number};

use res_base::Ratio;

/// A source of the system clock, or of the PLL, which does not feed itself.
#[derive(Clone, Copy, Debug, PartialEq, Eq)]
pub enum Src {
    /// The internal oscillator.
    Hsi,
    /// The external oscillator.
    Hse,
    /// The PLL's system output.
    Pll,
}

impl Src {
    /// The source that a clock variable or a register means by a number: HSI by 0, HSE by 1 and the PLL by any other.
    pub fn of(number: u64) -> Src
        ensures { result ≡ source_of number }
    {
        match number {
            0 => Src::Hsi,
            1 => Src::Hse,
            _ => Src::Pll,
        }
    }

    /// The number by which clock variables and registers mean this source.
    pub fn number(self) -> u8
        ensures { result ≡ source_number self }
    {
        match self {
            Src::Hsi => 0,
            Src::Hse => 1,
            Src::Pll => 2,
        }
    }
}

/// A value for each clock variable: the source of SYSCLK, the source of the PLL (HSI or HSE), the divider of AHB,
/// the PLL's P, M, N and Q, the dividers of APB1 and APB2, and the power step.
#[derive(Clone, Copy, Debug, PartialEq, Eq)]
pub struct ClockChoice {
    pub src: Src,
    pub psrc: Src,
    pub hpre: u16,
    pub p: u8,
    pub m: u8,
    pub n: u16,
    pub q: u8,
    pub ppre1: u8,
    pub ppre2: u8,
    pub vos: u8,
}

/// The nodes of the clock tree in hertz. Those of the PLL are None where it is not used.
#[derive(Clone, Copy, Debug)]
pub struct Nodes {
    pub vco_in: Option<Ratio>,
    pub vco: Option<Ratio>,
    pub sysclk: Ratio,
    pub hclk: Ratio,
    pub pclk1: Ratio,
    pub pclk2: Ratio,
    pub tim1: Ratio,
    pub tim2: Ratio,
    pub clk48: Option<Ratio>,
}

/// What a project and the options say of the clocks.
///
/// `hse_hz` is the frequency of the HSE in hertz. `osc_in` says that a signal takes its input, and `bypass` that
/// none takes its output beside it. `exact48` and `most48` say that an IP in use needs the 48 MHz output at exactly
/// or at most 48,000,000 Hz, and `need48` that one of the two holds. `floor` is the least HCLK in hertz, `vdd` the
/// supply voltage in millivolts, and the rest are the wishes in hertz.
#[derive(Clone, Copy, Debug, PartialEq, Eq)]
pub struct Facts {
    pub hse_hz: u64,
    pub osc_in: bool,
    pub bypass: bool,
    pub need48: bool,
    pub exact48: bool,
    pub most48: bool,
    pub floor: u64,
    pub vdd: u32,
    pub hclk: Option<u64>,
    pub pclk1: Option<u64>,
    pub pclk2: Option<u64>,
}

/// A run of positions for each clock variable, from the lowest to the highest, in the order
/// src, psrc, hpre, p, m, n, q, ppre1, ppre2, vos.
#[derive(Clone, Copy, Debug, PartialEq, Eq)]
pub struct ClockBox {
    pub lo: [u16; 10],
    pub hi: [u16; 10],
}

/// The fractions of a node from its least to its greatest.
#[derive(Clone, Copy, Debug)]
pub struct Range {
    pub least: Ratio,
    pub most: Ratio,
}
