//! Products, series, accounts and prices: what is entered, and how a day begins.
ghost use Rattle.std.specs.Prelude.{◌≡◌, map, IfOk, if◌then◌else◌, Ok, Err, IsTrue, length, vec_len, nat_lt};
ghost use Rattle.rules.specs.PerLot.{fits};
ghost use Rattle.book.specs.declared.refusal.Refusal.TheVariants.{OutOfRange};
ghost use Rattle.book.specs.Answer.{Done};
ghost use Rattle.book.specs.Call.{Product, Rates, Series as SeriesCall, Account as AccountCall, Opening, Print};
ghost use Rattle.book.specs.ClosedCalls.{opened_account};
ghost use Rattle.book.specs.House.{new_account, set_up};
ghost use Rattle.book.specs.Prices.{price_in_range, multiplier_in_range, settled};
ghost use Rattle.book.specs.Step.{step};
ghost use Rattle.house.specs.Reply.{done, entered};
ghost use Rattle.house.specs.View.{closed, trading};

use crate::house::{House, MAX_ORDERS};
use account::calls::call_at_opening;
use account::listing::is_price;
use account::market::Market;
use book::account::{Account, MAX_ACCOUNTS, MAX_PRODUCTS, MAX_SERIES, Position};
use book::market::{Quote, Series};
use book::refusal::Refusal;
use rules::levels::RiskMargins;
use rules::rule::MarginRule;
use std::alloc::{AllocError, Global};

/// The highest multiplier, in baht per point.
const MAX_MULTIPLIER: u64 = 10_000;

/// Whether a number is one of those given to what is in a list.
pub(crate) fn is_entered<T>(list: &[T], number: u64) -> bool
    ensures { result ≡ nat_lt number (length list.now) }
{
    number < list.len() as u64
}

/// The risk margins of a product, if they are in range.
fn margins_of(outright: u64, spread: u64) -> Result<RiskMargins, Refusal>
    ensures { result ≡ (if fits (record { outright = outright; spread = spread }) then Ok (record { outright = outright; spread = spread }) else Err OutOfRange) }
{
    RiskMargins::new(outright, spread).map_err(|_| Refusal::OutOfRange)
}

/// Whether a multiplier is in range.
fn is_multiplier(multiplier: u64) -> bool
    ensures { result ≡ multiplier_in_range multiplier }
{
    (1..=MAX_MULTIPLIER).contains(&multiplier)
}

/// A series of a product with its settlement price.
fn new_series(product: u64, multiplier: u64, price: u64) -> Series
    requires multiplier { IsTrue (multiplier_in_range multiplier) }
    requires price { IsTrue (price_in_range price) }
    ensures { result ≡ record { product = product; multiplier = multiplier; quote = settled price } }
{
    Series {
        product: product as usize,
        multiplier: multiplier as u32,
        quote: Quote {
            settlement: price as u32,
            last: None,
        },
    }
}

/// An account with zeros and no call.
#[tactic(auto, unfolding(book::specs::House::new_account))]
fn new_account() -> Account
    ensures { result ≡ new_account }
{
    Account {
        cash: 0,
        positions: [Position { net: 0, carry: 0 }; MAX_SERIES],
        orders: [None; MAX_PRODUCTS],
        call: None,
    }
}

/// Accounts at an opening, each open call a day older.
#[tactic(auto, using(crate::proofs::Tests::mapped_more))]
fn open_accounts(accounts: &mut [Account])
    ensures { accounts.new ≡ map opened_account accounts.old }
{
    for account in accounts.iter_mut() {
        account.call = call_at_opening(account.call);
    }
}

impl<R: MarginRule + Drop> House<R> {
    /// A closed house with nothing entered, and room for 32 accounts and a day's orders.
    pub(crate) fn blank(heap: Global, number: u32, rule: R) -> Result<House<R>, AllocError>
        ensures step { IfOk result (λ h. closed R.meaning h ≡ set_up number (R.meaning rule)) }
        ensures kept { IfOk result (λ h. vec_len h.placed ≡ 0) }
    {
        let market = Market::new(heap, rule)?;
        let accounts = Vec::with_capacity(heap, MAX_ACCOUNTS)?;
        let placed = Vec::with_capacity(heap, MAX_ORDERS)?;
        Ok(House {
            number,
            market,
            accounts,
            minute: 0,
            placed,
        })
    }
}

impl<R: MarginRule> House<R> {
    /// Enters a product with its risk margins.
    pub(crate) fn product(&mut self, outright: u64, spread: u64) -> Result<u64, Refusal>
        ensures step { step (closed R.meaning self.old) (Product outright spread) ≡ (entered result, closed R.meaning self.new) }
        ensures kept { self.new.placed ≡ self.old.placed }
    {
        let margins = margins_of(outright, spread)?;
        let number = self.market.products.len();
        if number >= MAX_PRODUCTS {
            return Err(Refusal::Full);
        }
        self.market.push_product(margins);
        Ok(number as u64)
    }

    /// Replaces both risk margins of a product.
    pub(crate) fn rates(&mut self, product: u64, outright: u64, spread: u64) -> Result<(), Refusal>
        ensures step { step (closed R.meaning self.old) (Rates product outright spread) ≡ (done result, closed R.meaning self.new) }
        ensures kept { self.new.placed ≡ self.old.placed }
    {
        if !is_entered(&self.market.products, product) {
            return Err(Refusal::Unknown);
        }
        let margins = margins_of(outright, spread)?;
        self.market.set_product(product as usize, margins);
        Ok(())
    }

    /// Enters a series of a product with its multiplier and its settlement price.
    pub(crate) fn series(
        &mut self,
        product: u64,
        multiplier: u64,
        price: u64,
    ) -> Result<u64, Refusal>
        ensures step { step (closed R.meaning self.old) (SeriesCall product multiplier price) ≡ (entered result, closed R.meaning self.new) }
        ensures kept { self.new.placed ≡ self.old.placed }
    {
        if !is_entered(&self.market.products, product) {
            return Err(Refusal::Unknown);
        }
        if !(is_multiplier(multiplier) && is_price(price)) {
            return Err(Refusal::OutOfRange);
        }
        let number = self.market.series.len();
        if number >= MAX_SERIES {
            return Err(Refusal::Full);
        }
        self.market
            .push_series(new_series(product, multiplier, price));
        Ok(number as u64)
    }

    /// Enters an account.
    pub(crate) fn account(&mut self) -> Result<u64, Refusal>
        ensures step { step (closed R.meaning self.old) AccountCall ≡ (entered result, closed R.meaning self.new) }
        ensures kept { self.new.placed ≡ self.old.placed }
    {
        let number = self.accounts.len();
        if number >= MAX_ACCOUNTS {
            return Err(Refusal::Full);
        }
        self.accounts.push_reserved(new_account());
        Ok(number as u64)
    }

    /// Begins a day: minute 0, no prints, and each open call a day older.
    pub(crate) fn opening(&mut self)
        requires { vec_len self.old.placed ≡ 0 }
        ensures { step (closed R.meaning self.old) Opening ≡ (Done, trading R.meaning self.new) }
    {
        self.minute = 0;
        self.market.open();
        open_accounts(&mut self.accounts);
    }

    /// Sets the last print of a series.
    pub fn print(&mut self, series: u64, price: u64) -> Result<(), Refusal>
        ensures { step (trading R.meaning self.old) (Print series price) ≡ (done result, trading R.meaning self.new) }
    {
        if !is_entered(&self.market.series, series) {
            return Err(Refusal::Unknown);
        }
        if !is_price(price) {
            return Err(Refusal::OutOfRange);
        }
        self.market.print(series as usize, price as u32);
        Ok(())
    }
}
