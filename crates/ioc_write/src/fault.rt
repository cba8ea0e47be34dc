//! Why a project can't be written back.

/// A choice has no text of a project.
#[derive(Debug, Drop)]
pub enum BackFault {
    /// The needs would be numbered above 2^64 - 1.
    NoNumber,
    /// A line of the text would get more than 65,535 bytes.
    LongLine { line: u32 },
}
