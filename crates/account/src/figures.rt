//! What Figures tells of an account.
ghost use Rattle.std.specs.Prelude.{◌≡◌, vec_len};
ghost use Rattle.book.specs.TradingCalls.{figures_of};
ghost use Rattle.account.specs.Bounds.{Sound};
ghost use Rattle.account.specs.View.{the_market};

use crate::market::Market;
use crate::orders::left_of;
use book::account::{Account, Figures};
use rules::rule::MarginRule;

impl<R: MarginRule> Market<R> {
    /// An account's equity balance, requirements, free and open call.
    #[tactic(auto, unfolding(book::specs::Orders::free))]
    pub fn figures(&self, account: &Account) -> Figures
        requires { Sound (vec_len self.now.series) account.now }
        ensures { result ≡ figures_of (the_market R.meaning self.now) account.now }
    {
        let (initial, maintenance, force) = self.requirements(&account.positions);
        let equity = self.equity(account);
        let free = left_of(equity, initial, self.needs(account));
        Figures {
            equity,
            initial,
            maintenance,
            force,
            free,
            call: account.call,
        }
    }
}
