//! Laws of lines that are left out: functions that do nothing, whose contracts are the laws.
ghost use Rattle.ioc_without.specs.Laws.{LeftIsRead};

/// What a text says without one of its lines is what it says, but that line.
pub fn left_is_read()
    ensures { LeftIsRead }
{}
