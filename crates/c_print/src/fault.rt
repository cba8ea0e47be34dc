//! Why a text is refused.

/// Why a text is read as no list of accesses.
#[derive(Clone, Copy, Debug, PartialEq, Eq)]
pub enum CFault {
    /// The first line, from 1, that is not of a form due there, or one after the last line.
    Line { line: u32 },
}
