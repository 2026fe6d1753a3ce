//! Orders: tested, and held under the day's next order number.
ghost use Rattle.std.specs.Prelude.{◌≡◌, suc, ◌<◌, ◌≤◌, true, ◌&&◌, length, neg_ℤ, is_some, None, vec_len, unsigned_abs};
ghost use Rattle.account.specs.Bounds.{Sound, TradeFits, Below};
ghost use Rattle.account.specs.View.{the_market};
ghost use Rattle.book.specs.Call.{Check};
ghost use Rattle.book.specs.House.{account_at, has_account, has_series};
ghost use Rattle.book.specs.Market.{product_of};
ghost use Rattle.book.specs.Step.{step};
ghost use Rattle.book.specs.TradingCalls.{lots_in_range, knows_second, second_fits, net_fits, second_net_fits, order_in, with_order, allowed_under_call, affordable};
ghost use Rattle.house.specs.Places.{held, Within};
ghost use Rattle.house.specs.Reply.{ordered};
ghost use Rattle.house.specs.Sound.{trade_sound};
ghost use Rattle.house.specs.View.{trading};

use crate::house::{House, MAX_ORDERS};
use crate::listing::is_entered;
use book::account::{Account, Order, Placement, Stage, Trade};
use book::refusal::Refusal;
use rules::rule::MarginRule;

/// The most lots of an order, and of a position, in size.
const MAX_LOTS: u64 = 1_000;

fn lots_in_range(lots: i64) -> bool
    ensures { result ≡ lots_in_range lots }
{
    (1..=MAX_LOTS).contains(&lots.unsigned_abs())
}

/// The terms of an order.
fn trade_of(series: u64, lots: i64, second: Option<u64>) -> Trade
    requires { lots_in_range lots ≡ true }
    ensures { result ≡ record { series = series; lots = lots; second = second } }
{
    Trade {
        series: series as usize,
        lots: lots as i32,
        second: second.map(|j| j as usize),
    }
}

/// Whether a position with lots added stays within the most in size.
fn net_fits(account: &Account, series: usize, lots: i32) -> bool
    requires { series < 24 }
    ensures { result ≡ net_fits account.now series lots }
{
    let after = account.positions[series].net as i64 + lots as i64;
    after.unsigned_abs() <= MAX_LOTS
}

impl<R: MarginRule> House<R> {
    fn knows_second(&self, second: Option<u64>) -> bool
        ensures { result ≡ knows_second (trading R.meaning self.now) second }
    {
        second.is_none_or(|j| is_entered(&self.market.series, j))
    }

    /// Whether an account and the series of an order are entered.
    fn knows(&self, account: u64, series: u64, second: Option<u64>) -> bool
        ensures { result ≡ (has_account (trading R.meaning self.now) account && (has_series (trading R.meaning self.now) series && knows_second (trading R.meaning self.now) second)) }
    {
        is_entered(&self.accounts, account)
            && is_entered(&self.market.series, series)
            && self.knows_second(second)
    }

    /// The product of a series.
    fn product_of(&self, series: usize) -> usize
        requires { series < vec_len self.now.market.series }
        ensures value { result ≡ product_of self.now.market.series.items series }
        ensures there { result < 8 }
    {
        self.market.series[series].product
    }

    /// Whether a second series is another one of the same product.
    fn second_fits(&self, trade: Trade) -> bool
        requires first { trade.series < vec_len self.now.market.series }
        requires second { Below trade.second (vec_len self.now.market.series) }
        ensures { result ≡ second_fits (the_market R.meaning self.now.market) trade.series trade.second }
    {
        let product = self.product_of(trade.series);
        trade
            .second
            .is_none_or(|j| trade.series != j && product == self.product_of(j))
    }

    /// Whether an order may be placed under an open call.
    fn allowed_under_call(&self, account: &Account, trade: Trade) -> bool
        requires sound { Sound (vec_len self.now.market.series) account.now }
        requires fits { TradeFits (vec_len self.now.market.series) account.now.positions trade }
        ensures { result ≡ allowed_under_call (the_market R.meaning self.now.market) trade account.now }
    {
        account.call.is_none() || self.market.lowers(account, trade)
    }

    /// Whether what an order needs is free.
    fn affordable(&self, account: &Account, trade: Trade) -> bool
        requires sound { Sound (vec_len self.now.market.series) account.now }
        requires fits { TradeFits (vec_len self.now.market.series) account.now.positions trade }
        ensures { result ≡ affordable (the_market R.meaning self.now.market) trade account.now }
    {
        let need = self.market.need(account, trade);
        need == 0 || self.has_free(account, need)
    }
}

/// Whether no net lots pass the most in size after a trade.
fn nets_fit(account: &Account, trade: Trade) -> bool
    requires first { trade.series < 24 }
    requires second { Below trade.second 24 }
    requires lots { unsigned_abs trade.lots ≤ 1_000 }
    ensures { result ≡ (net_fits account.now trade.series trade.lots && second_net_fits account.now trade.second (neg_ℤ trade.lots)) }
{
    net_fits(account, trade.series, trade.lots)
        && trade
            .second
            .is_none_or(|j| net_fits(account, j, -trade.lots))
}

/// Whether an account has an open order in a product.
fn has_order(account: &Account, product: usize) -> bool
    requires { product < 8 }
    ensures { result ≡ is_some (order_in account.now product) }
{
    account.orders[product].is_some()
}

/// An account with another order, or none, in a product.
pub(crate) fn with_order(account: &Account, product: usize, order: Option<Order>) -> Account
    requires { product < 8 }
    ensures { result ≡ with_order product order account.now }
{
    let mut after = *account;
    after.orders[product] = order;
    after
}

impl<R: MarginRule> House<R> {
    /// Holds an order under the day's next order number.
    fn hold(&mut self, place: Placement, trade: Trade) -> u64
        requires there { Within (vec_len self.old.accounts) place }
        requires left { vec_len self.old.placed < 9_999 }
        requires none { order_in (account_at (trading R.meaning self.old) place.account) place.product ≡ None }
        requires sound { trade_sound self.old.market.series.items (account_at (trading R.meaning self.old) place.account).positions place.product trade ≡ true }
        ensures number { result ≡ suc (length self.old.placed.items) }
        ensures state { trading R.meaning self.new ≡ held (trading R.meaning self.old) self.old.minute self.old.placed.items place trade }
    {
        let number = self.placed.len() as u32 + 1;
        let before = self.account_at(place.account);
        let order = Order {
            number,
            stage: Stage::Held,
            trade,
        };
        self.accounts[place.account] = with_order(&before, place.product, Some(order));
        self.placed.push_reserved(place);
        number as u64
    }

    /// Tests an order, which is then held under the day's next order number.
    pub fn check(
        &mut self,
        account: u64,
        series: u64,
        lots: i64,
        second: Option<u64>,
    ) -> Result<u64, Refusal>
        ensures { step (trading R.meaning self.old) (Check account series lots second) ≡ (ordered result, trading R.meaning self.new) }
    {
        if !self.knows(account, series, second) {
            return Err(Refusal::Unknown);
        }
        if !lots_in_range(lots) {
            return Err(Refusal::OutOfRange);
        }
        let trade = trade_of(series, lots, second);
        if !self.second_fits(trade) {
            return Err(Refusal::SecondSeries);
        }
        let before = self.account_at(account as usize);
        if !nets_fit(&before, trade) {
            return Err(Refusal::PositionLimit);
        }
        let place = Placement {
            account: account as usize,
            product: self.product_of(trade.series),
        };
        if has_order(&before, place.product) {
            return Err(Refusal::OrderOpen);
        }
        if self.placed.len() >= MAX_ORDERS {
            return Err(Refusal::OrderNumbersUsed);
        }
        if !self.allowed_under_call(&before, trade) {
            return Err(Refusal::CallOpen);
        }
        if !self.affordable(&before, trade) {
            return Err(Refusal::ExceedsFree);
        }
        Ok(self.hold(place, trade))
    }
}
