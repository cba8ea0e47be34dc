//! The ops of the PLLI2S, and what a step of one may answer.

/// An access to the registers of the PLLI2S.
#[derive(Clone, Copy, Debug, PartialEq, Eq)]
pub enum I2sOp {
    /// Writes RCC_PLLI2SCFGR.
    Config(u32),
    /// Sets PLLI2SON.
    On,
    /// Reads until PLLI2SRDY is set, at most `polls` times.
    Await { polls: u32 },
}

/// What one step of an op did.
#[derive(Clone, Copy, Debug, PartialEq, Eq)]
pub enum I2sStep {
    Went,
    Waiting,
    Forbidden,
    TimedOut,
}
