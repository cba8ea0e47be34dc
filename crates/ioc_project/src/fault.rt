//! Why a project is refused.

/// A project is refused.
#[derive(Debug, Drop)]
pub enum ProjectFault {
    /// It is for another part or package; line 0 where no line names the part.
    WrongPart { line: u32 },
    /// The table has no such pin.
    UnknownPin { line: u32 },
    /// The table has no such signal.
    UnknownSignal { line: u32 },
    /// The table has no signal of that name with rows.
    UnknownNeed { need: u32 },
    /// A signal that must stay cannot be at its pin.
    NotCandidate { line: u32 },
    /// A value breaks its form.
    BadValue { line: u32 },
    /// A fixed clock variable has a home outside its domain.
    OutOfTable { line: u32 },
    /// Signals and needs together are more than 160.
    TooMany { count: u32 },
}
