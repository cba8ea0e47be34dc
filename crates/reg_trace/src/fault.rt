//! Why flag answers are refused, and why a run is not traced.

/// Why a text is read as no list of flag answers.
#[derive(Clone, Copy, Debug, PartialEq, Eq)]
pub enum AnswerFault {
    /// The first line, from 1, that is not of the form, or with which there are too many answers. The greatest number stands
    /// for all above it.
    Line { line: u32 },
}

/// Why a run is not traced.
#[derive(Clone, Copy, Debug, PartialEq, Eq)]
pub enum TraceFault {
    /// It has more than 1,000,000 steps.
    Long,
}
