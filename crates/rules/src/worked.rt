//! The worked cases.
ghost use Rattle.rules.specs.Worked.{WorkedLevels};

/// The definitions give the figures of the worked cases of levels and rules.
pub fn worked_levels()
    ensures { WorkedLevels }
{}
