//! Why a call is refused.
ghost use Rattle.std.specs.Prelude.{◌≡◌};
ghost use Rattle.book.specs.Refusals.{number_of};

/// Why a call is refused. A refusal changes nothing.
#[derive(Clone, Copy, PartialEq, Eq, Debug)]
pub enum Refusal {
    /// A product, series or account that is not entered.
    Unknown = 1,
    /// A value outside its range.
    OutOfRange = 2,
    /// As many products, series or accounts as a house holds are there.
    Full = 3,
    /// A minute below the present one.
    EarlierMinute = 4,
    /// A second series that is the first, or of another product.
    SecondSeries = 5,
    /// Some net lots would pass 1,000 in size.
    PositionLimit = 6,
    /// An open order stands in the way.
    OrderOpen = 7,
    /// The day's order numbers are used up.
    OrderNumbersUsed = 8,
    /// A margin call is open.
    CallOpen = 9,
    /// More than is free.
    ExceedsFree = 10,
    /// Some cash would pass its limit.
    CashLimit = 11,
    /// No such order in the state that the call asks for.
    NoSuchOrder = 12,
    /// A number of prices or market lots that does not match.
    WrongCount = 13,
    /// Nothing is due.
    NothingDue = 14,
    /// More lines than the sheet takes.
    SheetTooShort = 15,
}

/// The refusal's number.
impl From<Refusal> for u8 {
    ghost from_gives = { λ refusal number. number ≡ number_of refusal };

    fn from(refusal: Refusal) -> u8 {
        refusal as u8
    }
}
