//! How a market's products, series and prices change.
ghost use Rattle.std.specs.Prelude.{◌≡◌, ◌<◌, true, [], ◌∷◌, ◌++◌, length, IfOk, vec_len, slice_set};
ghost use Rattle.rules.specs.PerLot.{Fits};
ghost use Rattle.book.specs.Closing.{all};
ghost use Rattle.book.specs.Equity.{equity};
ghost use Rattle.book.specs.Market.{series_at};
ghost use Rattle.book.specs.Prices.{price_in_range, settled, printed, with_quote, open_prices, settle_prices};
ghost use Rattle.account.specs.View.{the_market, with_products, with_series};

use crate::market::Market;
use crate::prices::SettlementPrices;
use book::account::{Account, MAX_PRODUCTS, MAX_SERIES};
use book::market::{Quote, Series};
use rules::levels::RiskMargins;
use rules::rule::MarginRule;
use std::alloc::{AllocError, Global};

/// The highest price, in hundredths of a quoted point.
pub const MAX_PRICE: u64 = 10_000_000;

/// Whether a price is in range.
pub fn is_price(price: u64) -> bool
    ensures { result ≡ price_in_range price }
{
    (1..=MAX_PRICE).contains(&price)
}

/// Whether every price is in range.
pub fn all_priced(prices: &[u64]) -> bool
    ensures { result ≡ all price_in_range prices.now }
{
    prices.iter().all(|price| is_price(*price))
}

/// A series whose day is closed at a settlement price.
fn settled_at(series: Series, settlement: u32) -> Series
    ensures { result ≡ with_quote (settled settlement) series }
{
    Series {
        quote: Quote {
            settlement,
            last: None,
        },
        ..series
    }
}

/// Series whose day begins without prints.
fn open_all(series: &mut [Series])
    ensures { series.new ≡ open_prices series.old }
{
    for held in series.iter_mut() {
        held.quote.last = None;
    }
}

/// Series whose day is closed, each at its settlement price.
fn settle_all(series: &mut [Series], prices: &SettlementPrices)
    requires many { length prices.now ≡ length series.old }
    ensures { series.new ≡ settle_prices prices.now series.old }
{
    for (i, held) in series.iter_mut().enumerate() {
        *held = settled_at(*held, prices.of(i));
    }
}

impl<R: MarginRule + Drop> Market<R> {
    /// A market with no products and no series, and room for 8 and 24.
    pub fn new(heap: Global, rule: R) -> Result<Market<R>, AllocError>
        ensures { IfOk result (λ m. the_market R.meaning m ≡ record { rule = R.meaning rule; products = []; series = [] }) }
    {
        let products = Vec::with_capacity(heap, MAX_PRODUCTS)?;
        let series = Vec::with_capacity(heap, MAX_SERIES)?;
        Ok(Market {
            rule,
            products,
            series,
        })
    }
}

impl<R: MarginRule> Market<R> {
    /// One more product.
    pub fn push_product(&mut self, margins: RiskMargins)
        requires room { vec_len self.old.products < 8 }
        requires fits { Fits margins }
        ensures { the_market R.meaning self.new ≡ with_products (self.old.products.items ++ margins ∷ []) (the_market R.meaning self.old) }
    {
        self.products.push_reserved(margins);
    }

    /// Other risk margins for a product.
    pub fn set_product(&mut self, product: usize, margins: RiskMargins)
        requires there { product < vec_len self.old.products }
        requires fits { Fits margins }
        ensures { the_market R.meaning self.new ≡ with_products (slice_set self.old.products.items product margins) (the_market R.meaning self.old) }
    {
        self.products[product] = margins;
    }

    /// One more series.
    pub fn push_series(&mut self, new: Series)
        requires room { vec_len self.old.series < 24 }
        requires known { new.product < vec_len self.old.products }
        ensures { the_market R.meaning self.new ≡ with_series (self.old.series.items ++ new ∷ []) (the_market R.meaning self.old) }
    {
        self.series.push_reserved(new);
    }

    /// A print of a series.
    pub fn print(&mut self, series: usize, price: u32)
        requires there { series < vec_len self.old.series }
        ensures { the_market R.meaning self.new ≡ with_series (slice_set self.old.series.items series (with_quote (printed price (series_at self.old.series.items series).quote) (series_at self.old.series.items series))) (the_market R.meaning self.old) }
    {
        self.series[series].quote.last = Some(price);
    }

    /// A new day, without prints.
    pub fn open(&mut self)
        ensures { the_market R.meaning self.new ≡ with_series (open_prices self.old.series.items) (the_market R.meaning self.old) }
    {
        open_all(self.series.as_mut_slice());
    }

    /// The settlement prices of a day, one for each series.
    pub fn settle(&mut self, prices: &[u64])
        requires many { length prices.now ≡ vec_len self.old.series }
        requires priced { all price_in_range prices.now ≡ true }
        ensures { the_market R.meaning self.new ≡ with_series (settle_prices prices.now self.old.series.items) (the_market R.meaning self.old) }
    {
        let prices = SettlementPrices::from_priced(prices);
        settle_all(self.series.as_mut_slice(), &prices);
    }

    /// The equity balance of an account at settlement prices.
    pub fn equity_at(&self, prices: &[u64], account: &Account) -> i128
        requires many { length prices.now ≡ vec_len self.now.series }
        requires priced { all price_in_range prices.now ≡ true }
        ensures value { result ≡ equity (with_series (settle_prices prices.now self.now.series.items) (the_market R.meaning self.now)) account.now }
    {
        let prices = SettlementPrices::from_priced(prices);
        self.balance(account, |i, held| settled_at(held, prices.of(i)))
    }
}
