//! Amounts of money in baht.
ghost use Rattle.std.specs.Prelude.{◌≡◌, ◌<◌};
ghost use Rattle.sheet.specs.Amount.{digit_of, from_unit, baht, right_aligned};

/// The digit that counts a unit.
fn digit(satang: u32, unit: u32) -> u8
    requires { 0 < unit }
    ensures { result ≡ digit_of unit satang }
{
    b'0' + (satang / unit % 10) as u8
}

/// What stands at a place that an amount below the unit leaves blank.
fn from(satang: u32, unit: u32, byte: u8) -> u8
    ensures { result ≡ from_unit unit satang byte }
{
    if satang < unit { b' ' } else { byte }
}

/// An amount of satang in baht, as 8,550.00, with blanks in front.
pub fn amount(satang: u32) -> [u8; 13]
    ensures { result ≡ right_aligned 13 (baht satang) }
{
    [
        from(satang, 1_000_000_000, digit(satang, 1_000_000_000)),
        from(satang, 100_000_000, digit(satang, 100_000_000)),
        from(satang, 100_000_000, b','),
        from(satang, 10_000_000, digit(satang, 10_000_000)),
        from(satang, 1_000_000, digit(satang, 1_000_000)),
        from(satang, 100_000, digit(satang, 100_000)),
        from(satang, 100_000, b','),
        from(satang, 10_000, digit(satang, 10_000)),
        from(satang, 1_000, digit(satang, 1_000)),
        digit(satang, 100),
        b'.',
        digit(satang, 10),
        digit(satang, 1),
    ]
}
