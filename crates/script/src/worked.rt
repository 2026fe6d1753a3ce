//! The worked cases.
ghost use Rattle.script.specs.Worked.{WorkedLines};

/// The definitions give the calls and the lines of the worked cases.
pub fn worked_lines()
    ensures { WorkedLines }
{}
