//! Orders that are held or sent: found by their numbers, sent, dropped, filled and cancelled.
ghost use Rattle.std.specs.Prelude.{◌≡◌, ◌-◌, ◌&&◌, is_some, if◌then◌else◌, None, IfSome, vec_len, ◌==◌, nat_lt};
ghost use Rattle.std.specs.Bool.{beq};
ghost use Rattle.std.specs.List.{slice_get};
ghost use Rattle.book.specs.Call.{Send, Drop as DropCall, Fill, Cancel};
ghost use Rattle.book.specs.House.{account_at, with_account};
ghost use Rattle.book.specs.Prices.{price_in_range};
ghost use Rattle.book.specs.Step.{step};
ghost use Rattle.book.specs.TradingCalls.{same_stage, order_in, with_order, find_order, held_order, second_in_range, sent};
ghost use Rattle.house.specs.Places.{as_found, StandsAt, Within};
ghost use Rattle.house.specs.Reply.{done};
ghost use Rattle.house.specs.View.{trading};

use crate::house::House;
use crate::orders::with_order;
use account::listing::is_price;
use book::account::{Order, Placement, Stage};
use book::refusal::Refusal;
use rules::rule::MarginRule;

/// Whether an order is the one of a number in a stage.
fn is_order(order: Order, stage: Stage, number: u64) -> bool
    ensures { result ≡ (order.number == number && same_stage order.stage stage) }
{
    order.number as u64 == number && order.stage == stage
}

/// An order that goes out.
fn sent(order: Order) -> Order
    ensures { result ≡ sent order }
{
    Order {
        stage: Stage::Sent,
        ..order
    }
}

impl<R: MarginRule> House<R> {
    /// The order at a place, unless it has ended.
    fn order_at(&self, place: Placement) -> Option<Order>
        requires { Within (vec_len self.now.accounts) place }
        ensures { result ≡ order_in (account_at (trading R.meaning self.now) place.account) place.product }
    {
        self.accounts[place.account].orders[place.product]
    }

    /// Where an order of the day was placed.
    fn place_of(&self, number: u64) -> Option<Placement>
        ensures found { result ≡ (if nat_lt 0 number then slice_get self.now.placed.items (number - 1) else None) }
        ensures there { IfSome result (Within (vec_len self.now.accounts)) }
    {
        let index = number.checked_sub(1)?;
        self.placed.get(index as usize).copied()
    }

    /// The open order of a number in a stage, with its place.
    fn find(&self, stage: Stage, number: u64) -> Option<(Placement, Order)>
        ensures found { as_found result ≡ find_order (trading R.meaning self.now) self.now.placed.items stage number }
        ensures there { IfSome result (λ f. StandsAt (trading R.meaning self.now) f.0 f.1) }
    {
        let place = self.place_of(number)?;
        let order = self.order_at(place)?;
        is_order(order, stage, number).then_some((place, order))
    }

    /// The order at a place ends.
    #[tactic(auto, using(crate::proofs::Keeps::keeps_ended))]
    fn end_order(&mut self, place: Placement)
        requires { Within (vec_len self.old.accounts) place }
        ensures { trading R.meaning self.new ≡ with_account place.account (with_order place.product None (account_at (trading R.meaning self.old) place.account)) (trading R.meaning self.old) }
    {
        let before = self.account_at(place.account);
        self.put(place.account, with_order(&before, place.product, None));
    }

    /// The held order of a ticket, with its place.
    fn held(&self, house: u32, number: u64) -> Option<(Placement, Order)>
        ensures found { as_found result ≡ held_order (trading R.meaning self.now) self.now.placed.items house number }
        ensures there { IfSome result (λ f. StandsAt (trading R.meaning self.now) f.0 f.1) }
    {
        if house == self.number {
            self.find(Stage::Held, number)
        } else {
            None
        }
    }

    /// A held order goes out.
    #[tactic(auto, using(crate::proofs::Keeps::keeps_sent))]
    pub(crate) fn send(&mut self, house: u32, number: u64) -> Result<(), Refusal>
        ensures { step (trading R.meaning self.old) (Send house number) ≡ (done result, trading R.meaning self.new) }
    {
        let (place, order) = self.held(house, number).ok_or(Refusal::NoSuchOrder)?;
        let before = self.account_at(place.account);
        let after = with_order(&before, place.product, Some(sent(order)));
        self.put(place.account, after);
        Ok(())
    }

    /// A held order ends.
    pub(crate) fn drop_held(&mut self, house: u32, number: u64) -> Result<(), Refusal>
        ensures { step (trading R.meaning self.old) (DropCall house number) ≡ (done result, trading R.meaning self.new) }
    {
        let (place, _) = self.held(house, number).ok_or(Refusal::NoSuchOrder)?;
        self.end_order(place);
        Ok(())
    }

    /// A sent order ends.
    pub fn cancel(&mut self, number: u64) -> Result<(), Refusal>
        ensures { step (trading R.meaning self.old) (Cancel number) ≡ (done result, trading R.meaning self.new) }
    {
        let (place, _) = self.find(Stage::Sent, number).ok_or(Refusal::NoSuchOrder)?;
        self.end_order(place);
        Ok(())
    }
}

/// Whether a second price is there just where a second leg is.
fn legs_match(second_price: Option<u64>, second: Option<usize>) -> bool
    ensures { result ≡ beq (is_some second_price) (is_some second) }
{
    second_price.is_some() == second.is_some()
}

/// Whether the prices of a fill are in range.
fn prices_fit(price: u64, second_price: Option<u64>) -> bool
    ensures { result ≡ (price_in_range price && second_in_range second_price) }
{
    is_price(price) && second_price.is_none_or(is_price)
}

impl<R: MarginRule> House<R> {
    /// Fills a sent order whole, which ends it; released margin is credited to an open call.
    #[tactic(auto, using(crate::proofs::Keeps::keeps_filled))]
    pub fn fill(
        &mut self,
        number: u64,
        price: u64,
        second_price: Option<u64>,
    ) -> Result<(), Refusal>
        ensures { step (trading R.meaning self.old) (Fill number price second_price) ≡ (done result, trading R.meaning self.new) }
    {
        let (place, order) = self.find(Stage::Sent, number).ok_or(Refusal::NoSuchOrder)?;
        if !legs_match(second_price, order.trade.second) {
            return Err(Refusal::WrongCount);
        }
        if !prices_fit(price, second_price) {
            return Err(Refusal::OutOfRange);
        }
        let before = self.account_at(place.account);
        let second_price = second_price.map(|p| p as u32);
        let filled = self
            .market
            .filled(&before, order.trade, price as u32, second_price);
        self.put(place.account, with_order(&filled, place.product, None));
        Ok(())
    }
}
