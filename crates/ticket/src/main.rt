//! Checks an order and sends it. The ticket of a checked order cannot be lost: it is spent, or it ends with its house.
#![tactic(auto)]

use book::refusal::Refusal;
use house::states::{Closed, Trading};
use house::ticket::Ticket;
use rules::rule::Pairs;
use std::io;

// Not shared with `overnight`: each of the two programs is read, and changed into one that must be rejected, alone.
/// Enters SET50 with a series and an account, and begins a day with 20,000 baht in it.
fn opened(mut house: Closed<Pairs>) -> Result<Trading<Pairs>, Refusal> {
    let product = house.product(450_000, 112_500)?;
    house.series(product, 200, 83_000)?;
    house.account()?;
    let mut trading = house.opening();
    trading.deposit(0, 2_000_000)?;
    Ok(trading)
}

/// Sends the order of a ticket or else drops it, and says which. A ticket that comes back from both is handed back.
fn spend(house: &mut Trading<Pairs>, ticket: Ticket) -> Result<&'static str, Ticket> {
    let Err((back, _)) = house.send(ticket) else {
        return Ok("sent");
    };
    let Err((back, _)) = house.drop_order(back) else {
        return Ok("dropped");
    };
    Err(back)
}

/// Checks an order of account 0 to buy two lots of series 0, and spends its ticket. One that is kept ends with the house.
fn buy(rt: &HostRuntime, mut house: Trading<Pairs>) -> io::Result<()> {
    let mut kept = Vec::with_capacity(rt.alloc(), 1)?;
    let printed = match house.check(0, 0, 2, None) {
        Ok(ticket) => {
            let order = ticket.order();
            let done = match spend(&mut house, ticket) {
                Ok(done) => done,
                Err(back) => {
                    kept.push_reserved(back);
                    "kept"
                }
            };
            println!(rt; "order {order} {done}")
        }
        Err(why) => println!(rt; "refused: {why:?}"),
    };
    house.shut_down(kept);
    printed
}

fn main(rt: HostRuntime) -> io::Result<()> {
    match opened(Closed::new(rt.alloc(), 1, Pairs)?) {
        Ok(house) => buy(&rt, house),
        Err(why) => println!(rt; "refused: {why:?}"),
    }
}
