//! The calls of a script that leave the house in its state.
ghost use Rattle.std.specs.Prelude.{IfOk, vec_len, vec_capacity};
ghost use Rattle.desk.specs.Replies.{call_of, Replied, HasPlaceFor};
ghost use Rattle.house.specs.States.{the_closed, the_trading};

use book::refusal::Refusal;
use house::states::{Closed, Trading};
use house::ticket::Ticket;
use rules::rule::MarginRule;
use script::answer::{Answer, Fault, Reply};
use script::command::Command;
use std::alloc::AllocError;

/// A house, with the tickets in hand.
pub struct Desk<H> {
    pub house: H,
    pub tickets: Vec<Ticket>,
}

/// A call on a closed house, but for Opening.
pub fn on_closed<R: MarginRule>(house: &mut Closed<R>, command: Command) -> Reply
    ensures { Replied (call_of command) (the_closed R.meaning house.old) result (the_closed R.meaning house.new) }
{
    match command {
        Command::House { .. } => Err(Fault::Unreadable),
        Command::Product { outright, spread } => {
            Ok(Answer::Entered(house.product(outright, spread)?))
        }
        Command::Rates {
            product,
            outright,
            spread,
        } => {
            house.rates(product, outright, spread)?;
            Ok(Answer::Done)
        }
        Command::Series {
            product,
            multiplier,
            price,
        } => Ok(Answer::Entered(house.series(product, multiplier, price)?)),
        Command::Account => Ok(Answer::Entered(house.account()?)),
        Command::Figures { account } => Ok(Answer::Told(house.figures(account)?)),
        _ => Err(Fault::NotNow),
    }
}

/// Spends the ticket of an order by Send or by Drop; one that comes back stays in hand.
fn spend<R: MarginRule, F>(
    house: &mut Trading<R>,
    tickets: &mut Vec<Ticket>,
    order: u64,
    call: F,
) -> Reply
where
    F: FnOnce(&mut Trading<R>, Ticket) -> Result<(), (Ticket, Refusal)>,
    requires { F.IsAlwaysCallable call }
{
    let place = tickets
        .iter()
        .position(|ticket| ticket.order() == order)
        .ok_or(Refusal::NoSuchOrder)?;
    let ticket = tickets.swap_remove(place);
    match call(house, ticket) {
        Ok(()) => Ok(Answer::Done),
        Err((ticket, refusal)) => {
            tickets.push_reserved(ticket);
            Err(Fault::Refused(refusal))
        }
    }
}

/// A call on a trading house but for Closing, with a place for the ticket of a Check.
fn reply<R: MarginRule>(
    house: &mut Trading<R>,
    tickets: &mut Vec<Ticket>,
    command: Command,
) -> Reply
    requires { HasPlaceFor command (vec_len tickets.old) (vec_capacity tickets.old) }
    ensures { Replied (call_of command) (the_trading R.meaning house.old) result (the_trading R.meaning house.new) }
{
    match command {
        Command::House { .. } => Err(Fault::Unreadable),
        Command::Clock { minute } => {
            house.clock(minute)?;
            Ok(Answer::Done)
        }
        Command::Print { series, price } => {
            house.print(series, price)?;
            Ok(Answer::Done)
        }
        Command::Deposit { account, amount } => {
            house.deposit(account, amount)?;
            Ok(Answer::Done)
        }
        Command::Withdraw { account, amount } => {
            house.withdraw(account, amount)?;
            Ok(Answer::Done)
        }
        Command::Check {
            account,
            series,
            lots,
            second,
        } => {
            let ticket = house.check(account, series, lots, second)?;
            let order = ticket.order();
            tickets.push_reserved(ticket);
            Ok(Answer::Ordered(order))
        }
        Command::Send { order } => spend(house, tickets, order, Trading::send),
        Command::Drop { order } => spend(house, tickets, order, Trading::drop_order),
        Command::Fill {
            order,
            price,
            second,
        } => {
            house.fill(order, price, second)?;
            Ok(Answer::Done)
        }
        Command::Cancel { order } => {
            house.cancel(order)?;
            Ok(Answer::Done)
        }
        Command::Figures { account } => Ok(Answer::Told(house.figures(account)?)),
        _ => Err(Fault::NotNow),
    }
}

/// A call on a trading house, but for Closing; an error where memory wants for a ticket.
pub fn on_trading<R: MarginRule>(
    house: &mut Trading<R>,
    tickets: &mut Vec<Ticket>,
    command: Command,
) -> Result<Reply, AllocError>
    ensures { IfOk result (λ x. Replied (call_of command) (the_trading R.meaning house.old) x (the_trading R.meaning house.new)) }
{
    if let Command::Check { .. } = command {
        tickets.reserve(1)?;
    }
    Ok(reply(house, tickets, command))
}

impl<R: MarginRule> Desk<Trading<R>> {
    /// A call on the desk's house, but for Closing; an error where memory wants for a ticket.
    pub fn on_trading(&mut self, command: Command) -> Result<Reply, AllocError>
        ensures { IfOk result (λ x. Replied (call_of command) (the_trading R.meaning self.old.house) x (the_trading R.meaning self.new.house)) }
    {
        on_trading(&mut self.house, &mut self.tickets, command)
    }
}
