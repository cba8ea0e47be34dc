//! Laws of what is read: functions that do nothing, whose contracts are the laws.
ghost use Rattle.ioc_project.specs.Laws.{NeedsHaveNoHome};

/// In every project that is read, the signals without a home are the needs, and no other.
pub fn needs_have_no_home()
    ensures { NeedsHaveNoHome }
{}
