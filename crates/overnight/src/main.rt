//! Two days of an account with two lots. Closing takes the trading house away, so that no price can be printed on it overnight.
#![tactic(auto)]

use book::account::Figures;
use book::refusal::Refusal;
use house::states::{Closed, Trading};
use rules::rule::Pairs;
use std::alloc::{AllocError, Global};
use std::io;

/// Why the days end early.
#[derive(Drop)]
enum Stop {
    Refused(Refusal),
    Failed(io::Error),
}

impl From<Refusal> for Stop {
    fn from(refusal: Refusal) -> Stop {
        Stop::Refused(refusal)
    }
}

impl From<io::Error> for Stop {
    fn from(e: io::Error) -> Stop {
        Stop::Failed(e)
    }
}

impl From<AllocError> for Stop {
    fn from(e: AllocError) -> Stop {
        Stop::Failed(e.into())
    }
}

// Not shared with `ticket`: each of the two programs is read, and changed into one that must be rejected, alone.
/// Enters SET50 with a series and an account, and begins a day with 20,000 baht in it.
fn opened(mut house: Closed<Pairs>) -> Result<Trading<Pairs>, Refusal> {
    let product = house.product(450_000, 112_500)?;
    house.series(product, 200, 83_000)?;
    house.account()?;
    let mut trading = house.opening();
    trading.deposit(0, 2_000_000)?;
    Ok(trading)
}

/// Buys two lots of series 0 for account 0 and fills them at 83,000. Where the ticket comes back, the house is shut down with it.
fn bought(mut house: Trading<Pairs>, heap: Global) -> Result<Trading<Pairs>, Stop> {
    let mut kept = Vec::with_capacity(heap, 1)?;
    let ticket = match house.check(0, 0, 2, None) {
        Ok(ticket) => ticket,
        Err(why) => {
            kept.destroy_empty();
            return Err(Stop::Refused(why));
        }
    };
    let order = ticket.order();
    if let Err((back, why)) = house.send(ticket) {
        kept.push_reserved(back);
        house.shut_down(kept);
        return Err(Stop::Refused(why));
    }
    kept.destroy_empty();
    house.fill(order, 83_000, None)?;
    Ok(house)
}

/// Shows the equity after a step of the day.
fn show(rt: &HostRuntime, step: &str, figures: Result<Figures, Refusal>) -> io::Result<()> {
    match figures {
        Ok(Figures { equity, .. }) => println!(rt; "{step}: equity {equity}"),
        Err(why) => println!(rt; "{step}: refused, {why:?}"),
    }
}

/// Prints a price of series 0.
fn print(rt: &HostRuntime, house: &mut Trading<Pairs>, price: u64) -> io::Result<()> {
    match house.print(0, price) {
        Ok(()) => show(rt, "printed", house.figures(0)),
        Err(why) => println!(rt; "refused: {why:?}"),
    }
}

/// A day, a night and a day.
fn two_days(rt: &HostRuntime) -> Result<(), Stop> {
    let house = opened(Closed::new(rt.alloc(), 1, Pairs)?)?;
    let mut monday = bought(house, rt.alloc())?;
    show(rt, "bought", monday.figures(0))?;
    print(rt, &mut monday, 83_500)?;
    let closed = monday.closing(&[83_200]).map_err(|(_, why)| why)?;
    show(rt, "closed", closed.figures(0))?;
    print(rt, &mut closed.opening(), 82_900)?;
    Ok(())
}

fn main(rt: HostRuntime) -> io::Result<()> {
    match two_days(&rt) {
        Ok(()) => Ok(()),
        Err(Stop::Refused(why)) => println!(rt; "refused: {why:?}"),
        Err(Stop::Failed(e)) => Err(e),
    }
}
