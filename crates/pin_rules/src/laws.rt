//! Laws of values and costs: functions that do nothing, whose contracts are the laws.
ghost use Rattle.pin_rules.specs.Laws.{NeedsAreFree, OthersPay};

/// A need has all its rows, for nothing. Any other signal pays exactly for leaving its home.
pub fn needs_alone_are_free()
    ensures needs { NeedsAreFree }
    ensures others { OthersPay }
{}
