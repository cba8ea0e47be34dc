//! The plain data of a verdict.
use res_base::VarSet;

/// What signals compete for: pins, or the pin numbers of external interrupts.
#[derive(Clone, Copy, Debug, PartialEq, Eq)]
pub enum Class {
    Pins,
    Exti,
}

/// Why no choice of a box is legal.
#[derive(Clone, Copy, Debug, PartialEq, Eq)]
pub enum Reason {
    /// These variables are more than the resources that their positions in the box have together.
    Hall { class: Class, vars: VarSet },
    /// Each choice of the box breaks the limit of this number.
    Limit(u8),
}

/// What a judge says of a box.
#[derive(Clone, Copy, Debug, PartialEq, Eq)]
pub enum Verdict {
    /// The reason says that no choice is legal.
    Bad(Reason),
    /// The box has one choice, and it is legal.
    Legal,
    /// The box has two or more choices.
    Open,
}
