//! The worked cases.
ghost use Rattle.sheet.specs.Worked.{WorkedTexts};

/// The definitions give the texts of the worked cases of numbers, amounts and lines.
pub fn worked_texts()
    ensures { WorkedTexts }
{}
