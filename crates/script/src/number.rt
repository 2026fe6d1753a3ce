//! The numbers of a script.
ghost use Rattle.std.specs.Prelude.{◌≡◌};
ghost use Rattle.script.specs.Number.{number, small, signed, second};

use sheet::number::decimal;

/// An unsigned number of 64 bits.
pub(crate) fn number(word: &[u8]) -> Option<u64>
    ensures { result ≡ number word.now }
{
    decimal(word).ok()
}

/// An unsigned number of 32 bits.
pub(crate) fn small(word: &[u8]) -> Option<u32>
    ensures { result ≡ small word.now }
{
    u32::try_from(number(word)?).ok()
}

/// A signed number of 64 bits: digits, or a minus and digits.
pub(crate) fn signed(word: &[u8]) -> Option<i64>
    ensures { result ≡ signed word.now }
{
    match word {
        [b'-', digits @ ..] => 0i64.checked_sub_unsigned(number(digits)?),
        digits => i64::try_from(number(digits)?).ok(),
    }
}

/// A number, or a minus alone where there is none.
pub(crate) fn second(word: &[u8]) -> Option<Option<u64>>
    ensures { result ≡ second word.now }
{
    match word {
        b"-" => Some(None),
        digits => Some(Some(number(digits)?)),
    }
}
