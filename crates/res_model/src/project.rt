//! The plain data of a project.
use res_base::{Items, Text};

/// A pin's pull resistor.
#[derive(Clone, Copy, Debug, PartialEq, Eq)]
pub enum Pull {
    None,
    Up,
    Down,
}

/// A pin's output speed.
#[derive(Clone, Copy, Debug, PartialEq, Eq)]
pub enum Speed {
    Low,
    Medium,
    High,
    VeryHigh,
}

/// A signal of a project, or a need, which has no home. A home is a place in the table's list of pins.
///
/// A pin that is only held is a signal of the name `-`. `locked` holds where the signal has a home and must stay there.
#[derive(Debug, Drop)]
pub struct Signal {
    pub name: Text,
    pub home: Option<u8>,
    pub locked: bool,
    pub need: bool,
    pub pull: Pull,
    pub speed: Speed,
}

/// The home of a clock variable, and the line that gives it; line 0 stands for the table's default.
#[derive(Clone, Copy, Debug, PartialEq, Eq)]
pub struct Home {
    pub value: u64,
    pub line: u32,
}

/// A project: its signals and then the needs, the homes of the clock variables in their order, the frequency
/// of the HSE in hertz, and the marks of its `VP_` pins.
#[derive(Debug, Drop)]
pub struct Project {
    pub signals: Items<Signal>,
    pub clock: [Home; 10],
    pub hse_hz: u64,
    pub marks: Items<Text>,
}
