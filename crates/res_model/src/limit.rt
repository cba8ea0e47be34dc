//! The limits of the clock tree, by name.
ghost use Rattle.std.specs.Prelude.{◌≡◌};
ghost use Rattle.res_model.specs.LimitNumbers.{limit_number};

/// A limit that a choice of clocks has to meet. Numbers 1 and 2 are those of pins.
#[derive(Clone, Copy, Debug, PartialEq, Eq)]
pub enum Limit {
    /// The HSE is fed where it is used.
    Hse,
    /// The input of the VCO is within its bounds.
    VcoIn,
    /// The VCO is within its bounds.
    Vco,
    /// SYSCLK is at most what the power step allows.
    Sysclk,
    /// HCLK is at most what the power step allows.
    Hclk,
    /// PCLK1 is at most what the power step allows.
    Pclk1,
    /// PCLK2 is at most what the power step allows.
    Pclk2,
    /// The 48 MHz output is exact where an IP needs it exact.
    Exact48,
    /// The 48 MHz output is at most 48 MHz where an IP needs it.
    Most48,
    /// HCLK is at least what the IPs in use need.
    Floor,
    /// A flash row covers HCLK at the supply voltage.
    FlashRow,
    /// HCLK is as wished.
    HclkWish,
    /// PCLK1 is as wished.
    Pclk1Wish,
    /// PCLK2 is as wished.
    Pclk2Wish,
    /// Over-drive runs beside the PLL alone.
    OverDrive,
}

impl Limit {
    /// The number by which texts and refutations name the limit, from 3 to 17.
    pub fn number(self) -> u8
        ensures { result ≡ limit_number self }
    {
        match self {
            Limit::Hse => 3,
            Limit::VcoIn => 4,
            Limit::Vco => 5,
            Limit::Sysclk => 6,
            Limit::Hclk => 7,
            Limit::Pclk1 => 8,
            Limit::Pclk2 => 9,
            Limit::Exact48 => 10,
            Limit::Most48 => 11,
            Limit::Floor => 12,
            Limit::FlashRow => 13,
            Limit::HclkWish => 14,
            Limit::Pclk1Wish => 15,
            Limit::Pclk2Wish => 16,
            Limit::OverDrive => 17,
        }
    }
}
