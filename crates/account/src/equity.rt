//! The equity balance.
ghost use Rattle.std.specs.Prelude.{◌≡◌, ℕ, ◌^◌, ◌<◌, ◌≤◌, vec_len, pos, ◌*ℤ◌, unsigned_abs};
ghost use Rattle.book.specs.Prices.{mark};
ghost use Rattle.book.specs.Market.{holding, series_at};
ghost use Rattle.book.specs.Equity.{gain, equity};
ghost use Rattle.account.specs.Balances.{IsBalance};
ghost use Rattle.account.specs.View.{the_market};

use crate::market::Market;
use book::account::{Account, Position};
use book::market::{Quote, Series};
use rules::rule::MarginRule;

/// Lots × price.
pub fn value_at(lots: i32, price: u32) -> i64
    ensures { result ≡ lots *ℤ pos price }
{
    lots as i64 * price as i64
}

/// A whole number of baht per point × a value in hundredths of a point.
fn scaled(multiplier: u32, value: i128) -> i128
    requires { unsigned_abs value ≤ 2 ^ 65 }
    ensures value { result ≡ pos multiplier *ℤ value }
    ensures size { unsigned_abs result ≤ 2 ^ 97 }
{
    multiplier as i128 * value
}

/// The mark of a series.
pub fn mark_of(quote: Quote) -> u32
    ensures { result ≡ mark quote }
{
    quote.last.unwrap_or(quote.settlement)
}

/// What an account has gained in a series.
pub(crate) fn gain_in(series: Series, position: Position) -> i128
    ensures value { result ≡ gain (holding series position) }
    ensures size { unsigned_abs result ≤ 2 ^ 97 }
{
    let worth = value_at(position.net, mark_of(series.quote));
    scaled(series.multiplier, worth as i128 - position.carry as i128)
}

impl<R> Market<R> {
    /// The equity balance of an account, each series as it is valued.
    pub(crate) fn balance<F: Fn(usize, Series) -> Series>(
        &self,
        account: &Account,
        valued: F,
    ) -> i128
        requires { (i : ℕ) → i < vec_len self.now.series → F.pre valued i (series_at self.now.series.items i) }
        ensures value { IsBalance (λ i. F.post valued i (series_at self.now.series.items i)) (vec_len self.now.series) account.now result }
        ensures size { unsigned_abs result ≤ 2 ^ 103 }
    {
        let mut balance = account.cash as i128;
        for (i, held) in self.series.iter().enumerate() {
            balance += gain_in(valued(i, *held), account.positions[i]);
        }
        balance
    }
}

impl<R: MarginRule> Market<R> {
    /// The equity balance of an account.
    pub fn equity(&self, account: &Account) -> i128
        ensures value { result ≡ equity (the_market R.meaning self.now) account.now }
        ensures size { unsigned_abs result ≤ 2 ^ 103 }
    {
        self.balance(account, |_, held| held)
    }
}
