//! What a fill does to an account.
ghost use Rattle.std.specs.Prelude.{◌≡◌, vec_len};
ghost use Rattle.std.specs.Option.{unwrap_or};
ghost use Rattle.book.specs.ForcedList.{with_fill};
ghost use Rattle.book.specs.Orders.{filled};
ghost use Rattle.account.specs.Bounds.{Fillable};
ghost use Rattle.account.specs.View.{the_market};

use crate::calls::credited;
use crate::market::Market;
use crate::orders::fill_trade;
use book::account::{Account, Trade};
use rules::rule::MarginRule;

impl<R: MarginRule> Market<R> {
    /// An account after a trade was filled: released margin is credited to an open call.
    #[tactic(auto, unfolding(book::specs::Orders::released))]
    pub fn filled(
        &self,
        account: &Account,
        trade: Trade,
        price: u32,
        second_price: Option<u32>,
    ) -> Account
        requires { Fillable (vec_len self.now.series) account.now.positions trade }
        ensures { result ≡ with_fill (the_market R.meaning self.now) (filled trade price (unwrap_or second_price 0) account.now.positions) account.now }
    {
        let mut after = *account;
        fill_trade(&mut after.positions, trade, price, second_price);
        let released = self.imr(account).saturating_sub(self.imr(&after));
        after.call = credited(account.call, released);
        after
    }
}
