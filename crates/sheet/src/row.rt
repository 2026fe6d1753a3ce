//! A line of a rate sheet: an outright risk margin and a spread risk margin in satang, and a name.
ghost use Rattle.std.specs.Prelude.{◌≡◌};
ghost use Rattle.sheet.specs.declared.row.LineFault.TheVariants.{Range};
ghost use Rattle.sheet.specs.Row.{shown, shown_entry, of_text, of_line};

use crate::number::{NumberFault, decimal};
use crate::word::{split_word, trimmed};
use rules::levels::{Levels, RangeError, RiskMargins};
use std::error::Error;
use std::fmt;

/// Why a line is no row.
#[derive(Clone, Copy, PartialEq, Eq, Debug)]
pub enum LineFault {
    Outright(NumberFault),
    NoSpread,
    Spread(NumberFault),
    NoName,
    NotText,
    Range(RangeError),
}

impl From<RangeError> for LineFault {
    ghost from_gives = { λ error fault. fault ≡ Range error };

    fn from(error: RangeError) -> LineFault {
        LineFault::Range(error)
    }
}

impl fmt::Display for LineFault {
    fn fmt<W: fmt::Write>(&self, f: &mut fmt::Formatter<W>) -> fmt::Result {
        match self {
            LineFault::Outright(fault) => write!(f, "the outright risk margin is {fault}"),
            LineFault::NoSpread => f.write_str("the spread risk margin is missing"),
            LineFault::Spread(fault) => write!(f, "the spread risk margin is {fault}"),
            LineFault::NoName => f.write_str("the name is missing"),
            LineFault::NotText => f.write_str("the name is not UTF-8 text"),
            LineFault::Range(RangeError::Outright) => f.write_str(
                "the outright risk margin is outside 1 to 500,000,000",
            ),
            LineFault::Range(RangeError::Spread) => f.write_str(
                "the spread risk margin is outside 1 to the outright risk margin",
            ),
        }
    }
}

impl Error for LineFault {}

/// A product's margin levels for one lot outright and for one lot of a spread.
#[derive(Clone, Copy, PartialEq, Eq, Debug)]
pub struct Row<'a> {
    pub name: &'a str,
    pub outright: Levels,
    pub spread: Levels,
}

/// What a text says that is neither blank nor a comment.
fn of_text(text: &[u8]) -> Result<Row<'_>, LineFault>
    ensures { shown result ≡ of_text text.now }
{
    let (word, rest) = split_word(text);
    let outright = decimal(word).map_err(LineFault::Outright)?;
    if rest.is_empty() {
        return Err(LineFault::NoSpread);
    }
    let (word, name) = split_word(rest);
    let spread = decimal(word).map_err(LineFault::Spread)?;
    if name.is_empty() {
        return Err(LineFault::NoName);
    }
    let name = str::from_utf8(name).map_err(|_| LineFault::NotText)?;
    let margins = RiskMargins::new(outright, spread)?;
    Ok(Row {
        name,
        outright: Levels::of(margins.outright),
        spread: Levels::of(margins.spread),
    })
}

/// The row of a line, or nothing where the line is blank or a comment.
pub fn read_row(line: &[u8]) -> Result<Option<Row<'_>>, LineFault>
    ensures { shown_entry result ≡ of_line line.now }
{
    match trimmed(line) {
        [] | [b'#', ..] => Ok(None),
        text => of_text(text).map(Some),
    }
}
