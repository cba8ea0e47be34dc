//! The options under which a project is read and resolved.
use res_base::{Items, Text};

/// Which variables may leave their homes.
#[derive(Clone, Copy, Debug, PartialEq, Eq)]
pub enum Free {
    /// The signals alone.
    Pins,
    /// The clock variables alone.
    Clock,
    All,
    Nothing,
}

/// The options of a command: the supply voltage in millivolts, the signals that are needed besides, the bus
/// clocks that are wished for in hertz, and what is free.
#[derive(Debug, Drop)]
pub struct Opts {
    pub vdd: u32,
    pub needs: Items<Text>,
    pub hclk: Option<u64>,
    pub pclk1: Option<u64>,
    pub pclk2: Option<u64>,
    pub free: Free,
}
