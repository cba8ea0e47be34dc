//! Why the text of a project is refused.

/// A project's text is refused, at its first faulty line.
#[derive(Debug, Drop)]
pub enum IocFault {
    /// It has more than 65,535 bytes.
    LongLine { line: u32 },
    /// It has no `=`.
    NoEquals { line: u32 },
    /// A named key has a value with an unknown escape.
    BadEscape { line: u32 },
    /// Its named key stood before.
    TwiceKey { line: u32 },
}
