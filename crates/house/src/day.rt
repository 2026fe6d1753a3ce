//! The calls on a closed and on a trading house.
ghost use Rattle.std.specs.Prelude.{◌≡◌, IfOk};
ghost use Rattle.book.specs.Answer.{Done};
ghost use Rattle.book.specs.Call.{Product, Rates, Series as SeriesCall, Account as AccountCall, Opening, Clock, Print, Deposit, Withdrawal, Check, Send, Drop as DropCall, Fill, Cancel, Closing, Figures as FiguresCall};
ghost use Rattle.book.specs.House.{set_up};
ghost use Rattle.book.specs.Step.{step};
ghost use Rattle.house.specs.Reply.{done, entered, told};
ghost use Rattle.house.specs.States.{the_closed, the_trading, moved, closing_answer, ticketed, Carries, spent, Back};

use crate::house::House;
use crate::states::{Closed, Trading};
use crate::ticket::Ticket;
use book::account::Figures;
use book::refusal::Refusal;
use rules::rule::MarginRule;
use std::alloc::{AllocError, Global};

impl<R: MarginRule + Drop> Closed<R> {
    /// Sets a house up, closed, with its number and its margin rule.
    pub fn new(heap: Global, number: u32, rule: R) -> Result<Closed<R>, AllocError>
        ensures { IfOk result (λ c. the_closed R.meaning c ≡ set_up number (R.meaning rule)) }
    {
        let house = House::blank(heap, number, rule)?;
        Ok(Closed { house })
    }
}

impl<R: MarginRule> Closed<R> {
    /// Enters a product with its risk margins, and answers its number.
    pub fn product(&mut self, outright: u64, spread: u64) -> Result<u64, Refusal>
        ensures { step (the_closed R.meaning self.old) (Product outright spread) ≡ (entered result, the_closed R.meaning self.new) }
    {
        self.house.product(outright, spread)
    }

    /// Replaces both risk margins of a product.
    pub fn rates(&mut self, product: u64, outright: u64, spread: u64) -> Result<(), Refusal>
        ensures { step (the_closed R.meaning self.old) (Rates product outright spread) ≡ (done result, the_closed R.meaning self.new) }
    {
        self.house.rates(product, outright, spread)
    }

    /// Enters a series of a product with its multiplier and settlement price, and answers its number.
    pub fn series(&mut self, product: u64, multiplier: u64, price: u64) -> Result<u64, Refusal>
        ensures { step (the_closed R.meaning self.old) (SeriesCall product multiplier price) ≡ (entered result, the_closed R.meaning self.new) }
    {
        self.house.series(product, multiplier, price)
    }

    /// Enters an account, and answers its number.
    pub fn account(&mut self) -> Result<u64, Refusal>
        ensures { step (the_closed R.meaning self.old) AccountCall ≡ (entered result, the_closed R.meaning self.new) }
    {
        self.house.account()
    }

    /// Tells an account's figures.
    pub fn figures(&self, account: u64) -> Result<Figures, Refusal>
        ensures { step (the_closed R.meaning self.now) (FiguresCall account) ≡ (told result, the_closed R.meaning self.now) }
    {
        self.house.figures(account)
    }

    /// Begins a trading day.
    pub fn opening(self) -> Trading<R>
        ensures { step (the_closed R.meaning self) Opening ≡ (Done, the_trading R.meaning result) }
    {
        let Closed { mut house } = self;
        house.opening();
        Trading { house }
    }
}

impl<R: MarginRule> Trading<R> {
    /// Sets the minute of the day.
    pub fn clock(&mut self, minute: u64) -> Result<(), Refusal>
        ensures { step (the_trading R.meaning self.old) (Clock minute) ≡ (done result, the_trading R.meaning self.new) }
    {
        self.house.clock(minute)
    }

    /// Sets the last print of a series.
    pub fn print(&mut self, series: u64, price: u64) -> Result<(), Refusal>
        ensures { step (the_trading R.meaning self.old) (Print series price) ≡ (done result, the_trading R.meaning self.new) }
    {
        self.house.print(series, price)
    }

    /// Adds to an account's cash, and to the credit of its open call.
    pub fn deposit(&mut self, account: u64, amount: u64) -> Result<(), Refusal>
        ensures { step (the_trading R.meaning self.old) (Deposit account amount) ≡ (done result, the_trading R.meaning self.new) }
    {
        self.house.deposit(account, amount)
    }

    /// Takes from an account's cash.
    pub fn withdraw(&mut self, account: u64, amount: u64) -> Result<(), Refusal>
        ensures { step (the_trading R.meaning self.old) (Withdrawal account amount) ≡ (done result, the_trading R.meaning self.new) }
    {
        self.house.withdraw(account, amount)
    }

    /// Tests an order, which is then held; its ticket is handed back to `send` or to `drop_order`.
    pub fn check(
        &mut self,
        account: u64,
        series: u64,
        lots: i64,
        second: Option<u64>,
    ) -> Result<Ticket, Refusal>
        ensures step { step (the_trading R.meaning self.old) (Check account series lots second) ≡ (ticketed result, the_trading R.meaning self.new) }
        ensures house { Carries self.old.house.number result }
    {
        let house = self.house.number;
        let order = self.house.check(account, series, lots, second)?;
        Ok(Ticket { house, order })
    }

    /// Sends the order of a ticket; a refused ticket comes back.
    pub fn send(&mut self, ticket: Ticket) -> Result<(), (Ticket, Refusal)>
        ensures step { step (the_trading R.meaning self.old) (Send ticket.house ticket.order) ≡ (spent result, the_trading R.meaning self.new) }
        ensures back { Back ticket result }
    {
        let spent = self.house.send(ticket.house, ticket.order);
        ticket.after(spent)
    }

    /// Ends the order of a ticket; a refused ticket comes back.
    pub fn drop_order(&mut self, ticket: Ticket) -> Result<(), (Ticket, Refusal)>
        ensures step { step (the_trading R.meaning self.old) (DropCall ticket.house ticket.order) ≡ (spent result, the_trading R.meaning self.new) }
        ensures back { Back ticket result }
    {
        let spent = self.house.drop_held(ticket.house, ticket.order);
        ticket.after(spent)
    }

    /// Fills a sent order whole.
    pub fn fill(&mut self, order: u64, price: u64, second_price: Option<u64>) -> Result<(), Refusal>
        ensures { step (the_trading R.meaning self.old) (Fill order price second_price) ≡ (done result, the_trading R.meaning self.new) }
    {
        self.house.fill(order, price, second_price)
    }

    /// Ends a sent order.
    pub fn cancel(&mut self, order: u64) -> Result<(), Refusal>
        ensures { step (the_trading R.meaning self.old) (Cancel order) ≡ (done result, the_trading R.meaning self.new) }
    {
        self.house.cancel(order)
    }

    /// Tells an account's figures.
    pub fn figures(&self, account: u64) -> Result<Figures, Refusal>
        ensures { step (the_trading R.meaning self.now) (FiguresCall account) ≡ (told result, the_trading R.meaning self.now) }
    {
        self.house.figures(account)
    }

    /// Settles every account and closes the house; a refused one comes back trading, as it was.
    pub fn closing(self, prices: &[u64]) -> Result<Closed<R>, (Trading<R>, Refusal)>
        ensures { step (the_trading R.meaning self) (Closing prices.now) ≡ (closing_answer result, moved R.meaning result) }
    {
        let Trading { mut house } = self;
        // Not by `?`: a refusal hands the house back.
        match house.closing(prices) {
            Ok(()) => Ok(Closed { house }),
            Err(why) => Err((Trading { house }, why)),
        }
    }
}

/// Takes tickets apart.
fn void(mut tickets: Vec<Ticket>) {
    // Not by an iterator: it would have to let go of the tickets that are left.
    while let Some(ticket) = tickets.pop() {
        ticket.end();
    }
    tickets.destroy_empty();
}

impl<R: MarginRule + Drop> Closed<R> {
    /// Shuts the house down; its tickets end with it.
    pub fn shut_down(self, tickets: Vec<Ticket>) {
        void(tickets);
    }
}

impl<R: MarginRule + Drop> Trading<R> {
    /// Shuts the house down; its tickets end with it.
    pub fn shut_down(self, tickets: Vec<Ticket>) {
        void(tickets);
    }
}
