//! The state of the registers of the PLLI2S.

/// The word of RCC_PLLI2SCFGR, PLLI2SON, PLLI2SRDY, and the polls of the current await.
#[derive(Clone, Copy, Debug, PartialEq, Eq)]
pub struct State {
    pub config: u32,
    pub on: bool,
    pub ready: bool,
    pub polls: u32,
}
