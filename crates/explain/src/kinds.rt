//! What could be given up.

/// A single thing that could be given up: an option, or a line of the project's text.
#[derive(Clone, Copy, Debug, PartialEq, Eq)]
pub enum Thing {
    /// The need of this number, from 1.
    Need { number: usize },
    /// The wish for HCLK.
    Hclk,
    /// The wish for PCLK1.
    Pclk1,
    /// The wish for PCLK2.
    Pclk2,
    /// That not all is free.
    Freed,
    /// That all signals are kept, which this line says.
    Keep { line: u32 },
    /// That the signal of this place is locked, which this line says.
    Lock { signal: usize, line: u32 },
    /// The signal of this place, which has no rows, with the line that lists its pin.
    Pin { signal: usize, line: u32 },
}
