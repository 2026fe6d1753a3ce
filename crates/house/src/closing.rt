//! The close of a trading day.
ghost use Rattle.std.specs.Prelude.{◌≡◌, true, map, length, IfOk, vec_len};
ghost use Rattle.account.specs.View.{the_market, with_series};
ghost use Rattle.book.specs.Call.{Closing};
ghost use Rattle.book.specs.Closing.{all, settle_account};
ghost use Rattle.book.specs.Orders.{any_open};
ghost use Rattle.book.specs.Prices.{price_in_range, settle_prices};
ghost use Rattle.book.specs.Step.{step};
ghost use Rattle.house.specs.Closings.{none_open, cash_fits_at, Settleable, after_closing};
ghost use Rattle.house.specs.Reply.{done};
ghost use Rattle.house.specs.View.{trading};

use crate::house::House;
use account::listing::all_priced;
use account::market::Market;
use account::settle::cash_fits;
use book::account::Account;
use book::refusal::Refusal;
use rules::rule::MarginRule;

/// Whether an account has an open order.
fn has_open(account: &Account) -> bool
    ensures { result ≡ any_open account.now.orders }
{
    account.orders.iter().any(|order| order.is_some())
}

/// Whether no account has an open order.
fn none_open(accounts: &[Account]) -> bool
    ensures { result ≡ none_open accounts.now }
{
    accounts.iter().all(|account| !has_open(account))
}

/// Whether every account's equity balance at these prices may be cash.
fn all_fit<R: MarginRule>(market: &Market<R>, prices: &[u64], accounts: &[Account]) -> bool
    requires many { length prices.now ≡ vec_len market.now.series }
    requires priced { all price_in_range prices.now ≡ true }
    ensures { result ≡ cash_fits_at (with_series (settle_prices prices.now market.now.series.items) (the_market R.meaning market.now)) accounts.now }
{
    accounts
        .iter()
        .all(|account| cash_fits(market.equity_at(prices, account)))
}

/// Every account settled at the marks.
#[tactic(auto, using(crate::proofs::Tests::mapped_more))]
fn settle_all<R: MarginRule>(market: &Market<R>, accounts: &mut [Account])
    requires { Settleable (the_market R.meaning market.now) accounts.old }
    ensures { accounts.new ≡ map (settle_account (the_market R.meaning market.now)) accounts.old }
{
    // By index and element, as the project has it for Closing (docs/DECISIONS.md, C).
    for i in 0..accounts.len() {
        accounts[i] = market.settled(&accounts[i]);
    }
}

impl<R: MarginRule> House<R> {
    /// Settles every account at one price for each series, and ends the day.
    pub(crate) fn closing(&mut self, prices: &[u64]) -> Result<(), Refusal>
        ensures step { step (trading R.meaning self.old) (Closing prices.now) ≡ (done result, after_closing R.meaning result self.new) }
        ensures none { IfOk result (λ _. vec_len self.new.placed ≡ 0) }
    {
        if !none_open(&self.accounts) {
            return Err(Refusal::OrderOpen);
        }
        if prices.len() != self.market.series.len() {
            return Err(Refusal::WrongCount);
        }
        if !all_priced(prices) {
            return Err(Refusal::OutOfRange);
        }
        if !all_fit(&self.market, prices, &self.accounts) {
            return Err(Refusal::CashLimit);
        }
        self.market.settle(prices);
        settle_all(&self.market, &mut self.accounts);
        self.placed.clear();
        Ok(())
    }
}
