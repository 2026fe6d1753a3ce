//! The margin levels of one lot, from its risk margin.
ghost use Rattle.std.specs.Prelude.{◌≡◌, ◌≤◌};
ghost use Rattle.rules.specs.PerLot.{percent, per_lot, InRange, per_lot_answer, risk_margins, fits};

/// The largest risk margin of a lot, in satang.
pub const MAX_RISK: u64 = 500_000_000;

/// The three margin levels of one lot, in satang.
#[derive(Clone, Copy, PartialEq, Eq, Debug)]
pub struct Levels {
    pub initial: u32,
    pub maintenance: u32,
    pub force: u32,
}

/// What the clearing house asks for one lot of a product and for one lot of a spread, in satang.
#[derive(Clone, Copy, PartialEq, Eq, Debug)]
pub struct RiskMargins {
    pub outright: u32,
    pub spread: u32,
}

/// Which risk margin is outside its range.
#[derive(Clone, Copy, PartialEq, Eq, Debug)]
pub enum RangeError {
    /// Not 1 to 500,000,000.
    Outright,
    /// Not 1 up to the outright risk margin.
    Spread,
}

/// So many percent of a risk margin, rounded up to a whole satang.
fn percent_of(risk: u32, rate: u32) -> u32
    requires risk { InRange risk }
    requires rate { rate ≤ 190 }
    ensures { result ≡ percent rate risk }
{
    ((risk as u64 * rate as u64 + 99) / 100) as u32
}

impl Levels {
    /// The levels of one lot whose risk margin is known to be in range.
    pub fn of(risk: u32) -> Levels
        requires { InRange risk }
        ensures { result ≡ per_lot risk }
    {
        Levels {
            initial: percent_of(risk, 190),
            maintenance: percent_of(risk, 133),
            force: percent_of(risk, 57),
        }
    }
}

/// The levels of one lot, or a refusal where the risk margin is outside its range.
pub fn per_lot(risk: u64) -> Result<Levels, RangeError>
    ensures { result ≡ per_lot_answer risk }
{
    if !(1..=MAX_RISK).contains(&risk) {
        return Err(RangeError::Outright);
    }
    Ok(Levels::of(risk as u32))
}

impl RiskMargins {
    /// Both risk margins of a product, or which of them is outside its range.
    pub fn new(outright: u64, spread: u64) -> Result<RiskMargins, RangeError>
        ensures { result ≡ risk_margins outright spread }
    {
        if !(1..=MAX_RISK).contains(&outright) {
            return Err(RangeError::Outright);
        }
        if !(1..=outright).contains(&spread) {
            return Err(RangeError::Spread);
        }
        Ok(RiskMargins {
            outright: outright as u32,
            spread: spread as u32,
        })
    }

    /// Whether a product may have these risk margins.
    pub fn fits(&self) -> bool
        ensures { result ≡ fits self.now }
    {
        RiskMargins::new(self.outright as u64, self.spread as u64).is_ok()
    }
}
