//! Margin rules.
ghost use Rattle.std.specs.Prelude.{◌≡◌, ◌+◌, ◌*◌, ◌^◌, ◌<◌};
ghost use Rattle.rules.specs.PerLot.{Fits};
ghost use Rattle.rules.specs.Laws.{Rule, charged, FlatIsFree, InOrder, LongFalls, ShortFalls, PairFalls};
ghost use Rattle.rules.specs.Rules.{times, plus, gross, larger_side, pairs, chosen};
ghost use Rattle.rules.specs.RulesLemmas.{gross_keep, larger_side_keep, pairs_keep, chosen_keep};

use crate::levels::{Levels, RiskMargins};

/// The margin that a house asks for the lots on the two sides of a product.
pub trait MarginRule {
    ghost meaning: { Self → Rule };

    /// The initial, the maintenance and the force level of `long` lots long and `short` lots short.
    fn levels(&self, outright: Levels, spread: Levels, long: u16, short: u16) -> (u64, u64, u64)
        ensures { result ≡ meaning self.now outright spread long short };

    /// The levels of the lots on the two sides of a product with these risk margins.
    final fn charged(&self, margins: RiskMargins, long: u16, short: u16) -> (u64, u64, u64)
        requires { Fits margins }
        ensures { result ≡ charged (meaning self.now) margins long short }
    {
        let outright = Levels::of(margins.outright);
        let spread = Levels::of(margins.spread);
        self.levels(outright, spread, long, short)
    }

    ghost flat: { (rule : Self) → FlatIsFree (meaning rule) };

    ghost ordered: { (rule : Self) → InOrder (meaning rule) };

    ghost longer: { (rule : Self) → LongFalls (meaning rule) };

    ghost shorter: { (rule : Self) → ShortFalls (meaning rule) };

    ghost paired: { (rule : Self) → PairFalls (meaning rule) };
}

/// Every lot is charged outright.
#[derive(Clone, Copy, PartialEq, Eq, Debug)]
pub struct Gross;

/// The lots of the larger side are charged outright.
#[derive(Clone, Copy, PartialEq, Eq, Debug)]
pub struct LargerSide;

/// A lot long and a lot short make a pair that is charged as a spread; lots without a pair are charged outright.
#[derive(Clone, Copy, PartialEq, Eq, Debug)]
pub struct Pairs;

/// One level of so many lots, small enough that two of them can be added.
fn lots_at(lots: u32, level: u32) -> u64
    requires { lots < 2 ^ 17 }
    ensures value { result ≡ lots * level }
    ensures small { result < 2 ^ 49 }
{
    lots as u64 * level as u64
}

/// The levels of so many lots.
fn times(lots: u32, level: Levels) -> (u64, u64, u64)
    requires { lots < 2 ^ 17 }
    ensures value { result ≡ times lots level }
    ensures small { (result.0 < 2 ^ 49) × (result.1 < 2 ^ 49) × (result.2 < 2 ^ 49) }
{
    (
        lots_at(lots, level.initial),
        lots_at(lots, level.maintenance),
        lots_at(lots, level.force),
    )
}

/// The sum, level by level.
pub fn plus(a: (u64, u64, u64), b: (u64, u64, u64)) -> (u64, u64, u64)
    requires initial { a.0 + b.0 < 2 ^ 64 }
    requires maintenance { a.1 + b.1 < 2 ^ 64 }
    requires force { a.2 + b.2 < 2 ^ 64 }
    ensures { result ≡ plus a b }
{
    (a.0 + b.0, a.1 + b.1, a.2 + b.2)
}

impl MarginRule for Gross {
    ghost meaning = { λ _. gross };

    ghost flat = { λ rule. gross_keep.flat };

    ghost ordered = { λ rule. gross_keep.ordered };

    ghost longer = { λ rule. gross_keep.longer };

    ghost shorter = { λ rule. gross_keep.shorter };

    ghost paired = { λ rule. gross_keep.paired };

    fn levels(&self, outright: Levels, _spread: Levels, long: u16, short: u16) -> (u64, u64, u64) {
        times(long as u32 + short as u32, outright)
    }
}

impl MarginRule for LargerSide {
    ghost meaning = { λ _. larger_side };

    ghost flat = { λ rule. larger_side_keep.flat };

    ghost ordered = { λ rule. larger_side_keep.ordered };

    ghost longer = { λ rule. larger_side_keep.longer };

    ghost shorter = { λ rule. larger_side_keep.shorter };

    ghost paired = { λ rule. larger_side_keep.paired };

    fn levels(&self, outright: Levels, _spread: Levels, long: u16, short: u16) -> (u64, u64, u64) {
        times(long.max(short) as u32, outright)
    }
}

impl MarginRule for Pairs {
    ghost meaning = { λ _. pairs };

    ghost flat = { λ rule. pairs_keep.flat };

    ghost ordered = { λ rule. pairs_keep.ordered };

    ghost longer = { λ rule. pairs_keep.longer };

    ghost shorter = { λ rule. pairs_keep.shorter };

    ghost paired = { λ rule. pairs_keep.paired };

    fn levels(&self, outright: Levels, spread: Levels, long: u16, short: u16) -> (u64, u64, u64) {
        let single = times(long.abs_diff(short) as u32, outright);
        let paired = times(long.min(short) as u32, spread);
        plus(single, paired)
    }
}

/// One of the three rules, chosen as the program runs.
#[derive(Clone, Copy, PartialEq, Eq, Debug)]
pub enum RuleChoice {
    Gross,
    LargerSide,
    Pairs,
}

impl MarginRule for RuleChoice {
    ghost meaning = { chosen };

    ghost flat = { λ rule. (chosen_keep rule).flat };

    ghost ordered = { λ rule. (chosen_keep rule).ordered };

    ghost longer = { λ rule. (chosen_keep rule).longer };

    ghost shorter = { λ rule. (chosen_keep rule).shorter };

    ghost paired = { λ rule. (chosen_keep rule).paired };

    fn levels(&self, outright: Levels, spread: Levels, long: u16, short: u16) -> (u64, u64, u64) {
        match *self {
            RuleChoice::Gross => Gross.levels(outright, spread, long, short),
            RuleChoice::LargerSide => LargerSide.levels(outright, spread, long, short),
            RuleChoice::Pairs => Pairs.levels(outright, spread, long, short),
        }
    }
}
