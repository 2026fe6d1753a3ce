//! What Closing does to an account.
ghost use Rattle.std.specs.Prelude.{◌≡◌, true};
ghost use Rattle.book.specs.Closing.{settle_positions, settle_account};
ghost use Rattle.book.specs.Equity.{equity};
ghost use Rattle.book.specs.House.{cash_fits};
ghost use Rattle.account.specs.Bounds.{SmallNets};
ghost use Rattle.account.specs.View.{the_market};

use crate::calls::call_at_closing;
use crate::equity::{mark_of, value_at};
use crate::market::Market;
use book::account::{Account, MAX_SERIES, Position};
use rules::rule::MarginRule;

/// The most cash of an account, in satang.
pub const MAX_CASH: i128 = 100_000_000_000_000_000;

/// Whether an account may have so much cash.
pub fn cash_fits(cash: i128) -> bool
    ensures { result ≡ cash_fits cash }
{
    (-MAX_CASH..=MAX_CASH).contains(&cash)
}

impl<R> Market<R> {
    /// Positions whose carry is net lots × settlement price.
    fn settled_positions(&self, mut positions: [Position; MAX_SERIES]) -> [Position; MAX_SERIES]
        ensures { result ≡ settle_positions self.now.series.items positions }
    {
        for (i, held) in self.series.iter().enumerate() {
            positions[i].carry = value_at(positions[i].net, mark_of(held.quote));
        }
        positions
    }
}

impl<R: MarginRule> Market<R> {
    /// An account settled at the settlement prices, which are the marks.
    pub fn settled(&self, account: &Account) -> Account
        requires nets { SmallNets account.now.positions }
        requires fits { cash_fits (equity (the_market R.meaning self.now) account.now) ≡ true }
        ensures { result ≡ settle_account (the_market R.meaning self.now) account.now }
    {
        let equity = self.equity(account);
        let levels = self.requirements(&account.positions);
        let call = call_at_closing(equity, levels, account.call);
        let positions = self.settled_positions(account.positions);
        Account {
            cash: equity as i64,
            positions,
            call,
            ..*account
        }
    }
}
