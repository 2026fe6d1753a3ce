//! The settlement prices of a day.
ghost use Rattle.std.specs.Prelude.{◌≡◌, ℕ, ◌<◌, true, List, length, if◌then◌else◌, Some, None, slice_index};
ghost use Rattle.book.specs.Closing.{all};
ghost use Rattle.book.specs.Prices.{price_in_range};

use crate::listing::all_priced;
use std::marker::Model;

/// The settlement prices of a day, each in range.
#[derive(Drop)]
pub struct SettlementPrices<'a> {
    prices: &'a [u64],
}

impl<'a> Model for SettlementPrices<'a> {
    ghost Value = { List ℕ };

    ghost view = { λ p. p.prices.now };

    ghost invariant = { λ p. all price_in_range p.prices.now ≡ true };
}

impl<'a> SettlementPrices<'a> {
    /// Prices as settlement prices, if each is in range.
    pub fn new(prices: &'a [u64]) -> Option<SettlementPrices<'a>>
        ensures { result ≡ (if all price_in_range prices.now then Some prices.now else None) }
    {
        all_priced(prices).then(|| SettlementPrices::from_priced(prices))
    }

    /// Prices that are in range as settlement prices.
    pub(crate) fn from_priced(prices: &'a [u64]) -> SettlementPrices<'a>
        requires { all price_in_range prices.now ≡ true }
        ensures { result ≡ prices.now }
    {
        SettlementPrices { prices }
    }

    /// The settlement price of a series.
    pub(crate) fn of(&self, series: usize) -> u32
        requires { series < length self.now }
        ensures { result ≡ slice_index self.now series }
    {
        let prices = self.prices;
        prices[series] as u32
    }
}
