//! The worked cases.
ghost use Rattle.book.specs.Worked.{WorkedCases};

/// The definitions give the answers and the figures of all worked cases.
#[tactic(auto, using(crate::proofs::Cases::worked))]
pub fn worked_cases()
    ensures { WorkedCases }
{}
