//! Whole numbers in decimal digits.
ghost use Rattle.std.specs.Prelude.{◌≡◌, Some};
ghost use Rattle.std.specs.Char.{is_ascii_digit};
ghost use Rattle.std.specs.List.{list_all};
ghost use Rattle.sheet.specs.Number.{decimal, number_fault_text};

use std::error::Error;
use std::fmt;

/// Why a text is no number.
#[derive(Clone, Copy, PartialEq, Eq, Debug)]
pub enum NumberFault {
    /// It is empty, or has a byte other than a decimal digit.
    NotDigits,
    /// It does not fit 64 bits.
    TooLarge,
}

impl fmt::Display for NumberFault {
    ghost output = { λ fault. Some (number_fault_text fault) };

    fn fmt<W: fmt::Write>(&self, f: &mut fmt::Formatter<W>) -> fmt::Result {
        f.write_str(match self {
            NumberFault::NotDigits => "not a number",
            NumberFault::TooLarge => "too large to read",
        })
    }
}

impl Error for NumberFault {}

fn all_digits(text: &[u8]) -> bool
    ensures { result ≡ list_all is_ascii_digit text.now }
{
    text.iter().all(|b| b.is_ascii_digit())
}

/// The number that decimal digits write.
#[tactic(auto, using(crate::proofs::Numerals::digits))]
pub fn decimal(text: &[u8]) -> Result<u64, NumberFault>
    ensures { result ≡ decimal text.now }
{
    if text.is_empty() || !all_digits(text) {
        return Err(NumberFault::NotDigits);
    }
    let mut number: u64 = 0;
    for b in text {
        let digit = u64::from(b - b'0');
        number = number
            .checked_mul(10)
            .and_then(|n| n.checked_add(digit))
            .ok_or(NumberFault::TooLarge)?;
    }
    Ok(number)
}
