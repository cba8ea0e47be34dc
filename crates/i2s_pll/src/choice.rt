//! A choice of the PLLI2S and of an I2S's divider.

/// N and R of the PLLI2S (RM0090, RCC_PLLI2SCFGR), and DIV and ODD of the I2S (SPI_I2SPR).
///
/// N is at most 432 and at least 50, R is 2 to 7, DIV 2 to 255, and ODD 0 or 1.
#[derive(Clone, Copy, Debug, PartialEq, Eq)]
pub struct I2s {
    pub n: u16,
    pub r: u8,
    pub div: u8,
    pub odd: u8,
}
