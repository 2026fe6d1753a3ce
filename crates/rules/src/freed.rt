//! The initial margin that is freed by closing lots, under any margin rule.
ghost use Rattle.std.specs.Prelude.{◌≡◌};
ghost use Rattle.rules.specs.Freed.{freed, AboveZero, askable};

use crate::levels::RiskMargins;
use crate::rule::MarginRule;

/// The most lots on a side for which a rule keeps its laws.
pub const MOST_LOTS: u16 = 24_000;

fn askable(margins: RiskMargins, long: u16, short: u16) -> bool
    ensures { result ≡ askable margins long short }
{
    margins.fits() && long <= MOST_LOTS && short <= MOST_LOTS
}

/// The initial margin that is freed by closing one lot of the strictly larger side.
pub fn freed_by_one_lot<R: MarginRule>(
    rule: &R,
    margins: RiskMargins,
    long: u16,
    short: u16,
) -> Option<u64>
    ensures value { result ≡ freed (R.meaning rule.now) margins long short }
    ensures positive { AboveZero result }
{
    if !askable(margins, long, short) || long == short {
        return None;
    }
    let (before, _, _) = rule.charged(margins, long, short);
    let (after, _, _) = if short < long {
        rule.charged(margins, long - 1, short)
    } else {
        rule.charged(margins, long, short - 1)
    };
    Some(before - after)
}
