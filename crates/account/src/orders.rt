//! Trades and orders: what a fill does to positions, and what an order needs.
ghost use Rattle.std.specs.Prelude.{◌≡◌, ◌^◌, ◌<◌, ◌≤◌, length, pos, ◌-ℤ◌, vec_len, slice_index_or, unsigned_abs};
ghost use Rattle.std.specs.Option.{IfSome, option_map, unwrap_or};
ghost use Rattle.book.specs.Market.{flat};
ghost use Rattle.book.specs.Orders.{moved, fill_leg, filled, mark_at, imr, imr_after, need, lowers, order_need, needs, free};
ghost use Rattle.account.specs.Bounds.{SmallNets, Fillable, Sound, Below};
ghost use Rattle.account.specs.View.{the_market};

use crate::equity::{mark_of, value_at};
use crate::market::Market;
use book::account::{Account, Order, Position, Trade};
use rules::rule::MarginRule;

/// A position after lots were filled at a price.
fn moved(position: Position, lots: i32, price: u32) -> Position
    requires lots { unsigned_abs lots ≤ 1_000 }
    requires net { unsigned_abs position.net ≤ 1_000 }
    requires carry { unsigned_abs position.carry ≤ 2 ^ 61 }
    ensures { result ≡ moved lots price position }
{
    Position {
        net: position.net + lots,
        carry: position.carry + value_at(lots, price),
    }
}

/// A leg filled at a price.
#[tactic(auto, unfolding(book::specs::Orders::fill_leg))]
fn fill_leg(positions: &mut [Position], series: usize, lots: i32, price: u32)
    requires there { series < length positions.old }
    requires lots { unsigned_abs lots ≤ 1_000 }
    requires nets { unsigned_abs (slice_index_or positions.old series flat).net ≤ 1_000 }
    requires carries { unsigned_abs (slice_index_or positions.old series flat).carry ≤ 2 ^ 61 }
    ensures { positions.new ≡ fill_leg series lots price positions.old }
{
    positions[series] = moved(positions[series], lots, price);
}

/// A trade filled whole, its lots at the first price and the opposite lots of a second series at the second.
pub fn fill_trade(positions: &mut [Position], trade: Trade, price: u32, second_price: Option<u32>)
    requires { Fillable (length positions.old) positions.old trade }
    ensures value { positions.new ≡ filled trade price (unwrap_or second_price 0) positions.old }
    ensures nets { SmallNets positions.new }
{
    fill_leg(positions, trade.series, trade.lots, price);
    if let Some(second) = trade.second {
        fill_leg(positions, second, -trade.lots, second_price.unwrap_or(0));
    }
}

/// What is left of an equity balance.
pub(crate) fn left_of(equity: i128, initial: u64, needed: u64) -> i128
    requires { unsigned_abs equity ≤ 2 ^ 103 }
    ensures value { result ≡ equity -ℤ pos initial -ℤ pos needed }
    ensures size { unsigned_abs result ≤ 2 ^ 104 }
{
    equity - initial as i128 - needed as i128
}

impl<R: MarginRule> Market<R> {
    /// The mark of a series.
    fn mark_at(&self, series: usize) -> u32
        requires { series < vec_len self.now.series }
        ensures { result ≡ mark_at self.now.series.items series }
    {
        mark_of(self.series[series].quote)
    }

    /// The mark of a second series, if any.
    fn second_mark(&self, second: Option<usize>) -> Option<u32>
        requires { Below second (vec_len self.now.series) }
        ensures { result ≡ option_map (mark_at self.now.series.items) second }
    {
        second.map(|j| self.mark_at(j))
    }

    /// The initial requirement of an account.
    pub(crate) fn imr(&self, account: &Account) -> u64
        requires { SmallNets account.now.positions }
        ensures value { result ≡ imr (the_market R.meaning self.now) account.now }
        ensures size { result ≤ 2 ^ 49 }
    {
        self.requirements(&account.positions).0
    }

    /// The initial requirement of an account if a trade were filled now.
    fn imr_after(&self, account: &Account, trade: Trade) -> u64
        requires { Fillable (vec_len self.now.series) account.now.positions trade }
        ensures value { result ≡ imr_after (the_market R.meaning self.now) trade account.now }
        ensures size { result ≤ 2 ^ 49 }
    {
        let price = self.mark_at(trade.series);
        let second_price = self.second_mark(trade.second);
        let mut after = *account;
        fill_trade(&mut after.positions, trade, price, second_price);
        self.imr(&after)
    }

    /// The rise of the initial requirement if a trade were filled now, or 0.
    #[tactic(auto, unfolding(book::specs::Orders::need))]
    pub fn need(&self, account: &Account, trade: Trade) -> u64
        requires { Fillable (vec_len self.now.series) account.now.positions trade }
        ensures value { result ≡ need (the_market R.meaning self.now) trade account.now }
        ensures size { result ≤ 2 ^ 49 }
    {
        self.imr_after(account, trade)
            .saturating_sub(self.imr(account))
    }

    /// Whether the initial requirement would fall if a trade were filled now.
    #[tactic(auto, unfolding(book::specs::Orders::lowers))]
    pub fn lowers(&self, account: &Account, trade: Trade) -> bool
        requires { Fillable (vec_len self.now.series) account.now.positions trade }
        ensures { result ≡ lowers (the_market R.meaning self.now) trade account.now }
    {
        self.imr_after(account, trade) < self.imr(account)
    }

    /// The need of an open order, if there is one.
    fn order_need(&self, account: &Account, order: Option<Order>) -> u64
        requires { IfSome order (λ o. Fillable (vec_len self.now.series) account.now.positions o.trade) }
        ensures value { result ≡ order_need (the_market R.meaning self.now) account.now order }
        ensures size { result ≤ 2 ^ 49 }
    {
        order.map_or(0, |open| self.need(account, open.trade))
    }

    /// The needs of all open orders.
    pub(crate) fn needs(&self, account: &Account) -> u64
        requires { Sound (vec_len self.now.series) account.now }
        ensures value { result ≡ needs (the_market R.meaning self.now) account.now account.now.orders }
        ensures size { result ≤ 2 ^ 52 }
    {
        // As a slice: over the array itself the sum's end was not proved.
        let orders: &[Option<Order>] = &account.orders;
        let mut sum = 0;
        for order in orders {
            sum += self.order_need(account, *order);
        }
        sum
    }

    /// The equity balance less the initial requirement and the needs of all open orders.
    #[tactic(auto, unfolding(book::specs::Orders::free))]
    pub fn free(&self, account: &Account) -> i128
        requires { Sound (vec_len self.now.series) account.now }
        ensures value { result ≡ free (the_market R.meaning self.now) account.now }
        ensures size { unsigned_abs result ≤ 2 ^ 104 }
    {
        let equity = self.equity(account);
        left_of(equity, self.imr(account), self.needs(account))
    }
}
