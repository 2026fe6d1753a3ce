//! Works out a published table of margin rates again from its risk margins, and compares every figure.
//!
//! A line has the kind, the risk margin in satang, the initial, maintenance and force levels in baht, and a name.
#![tactic(auto)]

ghost use Rattle.std.specs.Prelude.{◌≡◌, ◌↔◌, [], ◌∷◌, map, IsTrue, IsUtf8, codes};
ghost use Rattle.sheet.specs.Amount.{baht, right_aligned};
ghost use Rattle.sheet.specs.Word.{trimmed};
ghost use Rattle.published.specs.Rate.{levels_said};

use rules::levels::{Levels, per_lot};
use sheet::amount::amount;
use sheet::number::decimal;
use sheet::word::{split_word, trimmed};
use std::io::{BufRead, BufReader};
use std::process::ExitCode;
use std::{fmt, io};

#[derive(Clone, Copy, PartialEq, Eq, Debug)]
enum Kind {
    Outright,
    Spread,
}

/// What a line of the table says. The three levels are published as text.
#[derive(Clone, Copy, PartialEq, Eq, Debug)]
struct Rate<'a> {
    kind: Kind,
    levels: Levels,
    initial: &'a [u8],
    maintenance: &'a [u8],
    force: &'a [u8],
}

/// A level of one lot in satang, and the text that is published for it.
#[derive(Clone, Copy, PartialEq, Eq, Debug)]
struct Figure<'a> {
    level: &'static str,
    computed: u32,
    published: &'a [u8],
}

/// Why a line of the table does not agree.
#[derive(Clone, Copy, PartialEq, Eq, Debug)]
enum Fault<'a> {
    NoRate,
    Differs(Rate<'a>),
}

impl<'a> Rate<'a> {
    /// The three levels, and what is published for each.
    fn figures(&self) -> [Figure<'a>; 3]
        ensures computed { map (λ f. f.computed) result ≡
            self.now.levels.initial ∷ self.now.levels.maintenance ∷ self.now.levels.force ∷ [] }
        ensures published { map (λ f. f.published.now) result ≡
            self.now.initial.now ∷ self.now.maintenance.now ∷ self.now.force.now ∷ [] }
    {
        [
            Figure {
                level: "initial",
                computed: self.levels.initial,
                published: self.initial,
            },
            Figure {
                level: "maintenance",
                computed: self.levels.maintenance,
                published: self.maintenance,
            },
            Figure {
                level: "force",
                computed: self.levels.force,
                published: self.force,
            },
        ]
    }
}

impl Figure<'_> {
    /// Whether the published text is the level in baht.
    fn agrees(&self) -> bool
        ensures { IsTrue result ↔
            (trimmed (right_aligned 13 (baht self.now.computed)) ≡ self.now.published.now) }
    {
        trimmed(&amount(self.computed)) == self.published
    }
}

impl fmt::Display for Figure<'_> {
    fn fmt<W: fmt::Write>(&self, f: &mut fmt::Formatter<W>) -> fmt::Result {
        write!(
            f,
            "{} level {}, published {}",
            self.level,
            shown(trimmed(&amount(self.computed))),
            shown(self.published),
        )
    }
}

/// Bytes as text, if they are text.
fn shown(bytes: &[u8]) -> &str
    ensures { IsUtf8 bytes.now → result.now ≡ bytes.now }
{
    str::from_utf8(bytes).unwrap_or("?")
}

fn kind_of(word: &[u8]) -> Option<Kind>
    ensures outright { (result ≡ Some Kind.Outright) ↔ (word.now ≡ codes "outright") }
    ensures spread { (result ≡ Some Kind.Spread) ↔ (word.now ≡ codes "spread") }
{
    match word {
        b"outright" => Some(Kind::Outright),
        b"spread" => Some(Kind::Spread),
        _ => None,
    }
}

/// The levels of one lot at the risk margin that a word says.
fn levels_of(word: &[u8]) -> Option<Levels>
    ensures { result ≡ levels_said word.now }
{
    per_lot(decimal(word).ok()?).ok()
}

fn rate_of(text: &[u8]) -> Option<Rate<'_>> {
    let (word, rest) = split_word(text);
    let kind = kind_of(word)?;
    let (word, rest) = split_word(rest);
    let levels = levels_of(word)?;
    let (initial, rest) = split_word(rest);
    let (maintenance, rest) = split_word(rest);
    let (force, name) = split_word(rest);
    if name.is_empty() {
        return None;
    }
    Some(Rate {
        kind,
        levels,
        initial,
        maintenance,
        force,
    })
}

/// The kind of the rate of a line, or nothing where the line is blank or a comment.
fn judge(line: &[u8]) -> Result<Option<Kind>, Fault<'_>> {
    let text = match trimmed(line) {
        [] | [b'#', ..] => return Ok(None),
        text => text,
    };
    let rate = rate_of(text).ok_or(Fault::NoRate)?;
    if rate.figures().iter().all(Figure::agrees) {
        Ok(Some(rate.kind))
    } else {
        Err(Fault::Differs(rate))
    }
}

/// Says on standard error what is wrong with a line.
fn report(rt: &HostRuntime, number: u64, fault: Fault<'_>) {
    match fault {
        Fault::NoRate => {
            let _ = eprintln!(rt; "line {number}: no rate");
        }
        Fault::Differs(rate) => {
            for figure in rate.figures().iter().filter(|figure| !figure.agrees()) {
                let _ = eprintln!(rt; "line {number}: {figure}");
            }
        }
    }
}

/// Compares the table. Fails where a line differs or is no rate.
fn check_table(rt: &HostRuntime) -> io::Result<ExitCode> {
    let mut input = BufReader::new(rt.alloc(), rt.stdin())?;
    let mut line = Vec::new(rt.alloc());
    let (mut outright, mut spread) = (0u64, 0u64);
    let mut status = ExitCode::SUCCESS;
    for number in 1..u64::MAX {
        line.clear();
        if input.read_until(b'\n', &mut line)? == 0 {
            break;
        }
        match judge(&line) {
            Ok(None) => {}
            Ok(Some(Kind::Outright)) => outright = outright.saturating_add(1),
            Ok(Some(Kind::Spread)) => spread = spread.saturating_add(1),
            Err(fault) => {
                status = ExitCode::FAILURE;
                report(rt, number, fault);
            }
        }
    }
    println!(rt; "{outright} outright rows and {spread} spread rows agree")?;
    Ok(status)
}

/// Ends with an error where a line differs or is no rate, the table cannot be read, or the result cannot be written.
fn main(rt: HostRuntime) -> ExitCode {
    check_table(&rt).unwrap_or_else(|e| {
        let _ = eprintln!(rt; "published: {e}");
        ExitCode::FAILURE
    })
}
