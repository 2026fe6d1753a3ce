//! A script's house, from the line that sets it up to the script's end.
use crate::calls::{Desk, on_closed};
use core::mem::replace_with;
use house::states::{Closed, Trading};
use rules::rule::RuleChoice;
use script::answer::{Answer, Fault, Reply};
use script::command::Command;
use std::alloc::{AllocError, Global};

/// A script's house, with the tickets in hand.
pub enum Session {
    /// No house is set up yet.
    Waiting,
    Closed(Desk<Closed<RuleChoice>>),
    Trading(Desk<Trading<RuleChoice>>),
}

/// Where a command moves the session, and what it is replied.
type Moved = (Session, Result<Reply, AllocError>);

/// Sets a house up, closed.
fn set_up(heap: Global, number: u32, rule: RuleChoice) -> Moved {
    // Not by `?`: the session comes back beside the error.
    match Closed::new(heap, number, rule) {
        Ok(house) => {
            let tickets = Vec::new(heap);
            (
                Session::Closed(Desk { house, tickets }),
                Ok(Ok(Answer::Done)),
            )
        }
        Err(e) => (Session::Waiting, Err(e)),
    }
}

/// Begins a trading day.
fn open(Desk { house, tickets }: Desk<Closed<RuleChoice>>) -> Moved {
    let house = house.opening();
    (
        Session::Trading(Desk { house, tickets }),
        Ok(Ok(Answer::Done)),
    )
}

/// Closes the house; one that refuses stays trading.
fn close(Desk { house, tickets }: Desk<Trading<RuleChoice>>, prices: &[u64]) -> Moved {
    match house.closing(prices) {
        Ok(house) => (
            Session::Closed(Desk { house, tickets }),
            Ok(Ok(Answer::Done)),
        ),
        Err((house, refusal)) => (
            Session::Trading(Desk { house, tickets }),
            Ok(Err(Fault::Refused(refusal))),
        ),
    }
}

impl Session {
    /// What a command is replied, a closing at these prices. House, Opening and Closing move the session on; the rest is done in place.
    pub fn next(
        &mut self,
        heap: Global,
        command: Command,
        prices: &[u64],
    ) -> Result<Reply, AllocError> {
        match self {
            Session::Closed(desk) if !matches!(command, Command::Opening) => {
                return Ok(on_closed(&mut desk.house, command));
            }
            Session::Trading(desk) if !matches!(command, Command::Closing) => {
                return desk.on_trading(command);
            }
            _ => {}
        }
        replace_with(
            self,
            (command, prices),
            |session, (command, prices)| match (session, command) {
                (Session::Waiting, Command::House { number, rule }) => set_up(heap, number, rule),
                (Session::Closed(desk), Command::Opening) => open(desk),
                (Session::Trading(desk), Command::Closing) => close(desk, prices),
                (session, _) => (session, Ok(Err(Fault::Unreadable))),
            },
        )
    }

    /// Ends the session.
    pub fn end(self) {
        match self {
            Session::Waiting => {}
            Session::Closed(Desk { house, tickets }) => house.shut_down(tickets),
            Session::Trading(Desk { house, tickets }) => house.shut_down(tickets),
        }
    }
}
