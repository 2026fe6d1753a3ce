//! The calls that a line can name.
ghost use Rattle.std.specs.Prelude.{◌≡◌};
ghost use Rattle.script.specs.Words.{words};
ghost use Rattle.script.specs.Fields.{trade};
ghost use Rattle.script.specs.Commands.{rule_of, house, check, fill, call_of};

use crate::fields::{first_number, first_word, numbers, only};
use crate::number::{second, signed, small};
use rules::rule::RuleChoice;

/// A call on a house.
#[derive(Clone, Copy, PartialEq, Eq, Debug)]
pub enum Command {
    House {
        number: u32,
        rule: RuleChoice,
    },
    Product {
        outright: u64,
        spread: u64,
    },
    Rates {
        product: u64,
        outright: u64,
        spread: u64,
    },
    Series {
        product: u64,
        multiplier: u64,
        price: u64,
    },
    Account,
    Opening,
    Clock {
        minute: u64,
    },
    Print {
        series: u64,
        price: u64,
    },
    Deposit {
        account: u64,
        amount: u64,
    },
    Withdraw {
        account: u64,
        amount: u64,
    },
    Check {
        account: u64,
        series: u64,
        lots: i64,
        second: Option<u64>,
    },
    Send {
        order: u64,
    },
    Drop {
        order: u64,
    },
    Fill {
        order: u64,
        price: u64,
        second: Option<u64>,
    },
    Cancel {
        order: u64,
    },
    /// Its prices stand in the list that the line was read with.
    Closing,
    Figures {
        account: u64,
    },
}

/// The margin rule that a word names.
fn rule_of(word: &[u8]) -> Option<RuleChoice>
    ensures { result ≡ rule_of word.now }
{
    match word {
        b"gross" => Some(RuleChoice::Gross),
        b"larger" => Some(RuleChoice::LargerSide),
        b"pairs" => Some(RuleChoice::Pairs),
        _ => None,
    }
}

/// A house number and a margin rule.
fn house(text: &[u8]) -> Option<Command>
    ensures { result ≡ house (words text.now) }
{
    let (word, rest) = first_word(text)?;
    let number = small(word)?;
    let rule = rule_of(only(rest)?)?;
    Some(Command::House { number, rule })
}

/// A series, signed lots and a second series, if any.
fn trade(text: &[u8]) -> Option<(u64, i64, Option<u64>)>
    ensures { result ≡ trade (words text.now) }
{
    let (series, rest) = first_number(text)?;
    let (word, rest) = first_word(rest)?;
    let lots = signed(word)?;
    let second = second(only(rest)?)?;
    Some((series, lots, second))
}

/// An account and the terms of an order.
fn check(text: &[u8]) -> Option<Command>
    ensures { result ≡ check (words text.now) }
{
    let (account, rest) = first_number(text)?;
    let (series, lots, second) = trade(rest)?;
    Some(Command::Check {
        account,
        series,
        lots,
        second,
    })
}

/// An order and the price of each leg.
fn fill(text: &[u8]) -> Option<Command>
    ensures { result ≡ fill (words text.now) }
{
    let (order, rest) = first_number(text)?;
    let (price, rest) = first_number(rest)?;
    let second = second(only(rest)?)?;
    Some(Command::Fill {
        order,
        price,
        second,
    })
}

/// The call of a name and the words after it. The closing of a day is not among them.
pub(crate) fn call_of(name: &[u8], text: &[u8]) -> Option<Command>
    ensures { result ≡ call_of name.now (words text.now) }
{
    match name {
        b"house" => house(text),
        b"product" => {
            let [outright, spread] = numbers::<2>(text)?;
            Some(Command::Product { outright, spread })
        }
        b"rates" => {
            let [product, outright, spread] = numbers::<3>(text)?;
            Some(Command::Rates {
                product,
                outright,
                spread,
            })
        }
        b"series" => {
            let [product, multiplier, price] = numbers::<3>(text)?;
            Some(Command::Series {
                product,
                multiplier,
                price,
            })
        }
        b"account" => {
            let [] = numbers::<0>(text)?;
            Some(Command::Account)
        }
        b"opening" => {
            let [] = numbers::<0>(text)?;
            Some(Command::Opening)
        }
        b"clock" => {
            let [minute] = numbers::<1>(text)?;
            Some(Command::Clock { minute })
        }
        b"print" => {
            let [series, price] = numbers::<2>(text)?;
            Some(Command::Print { series, price })
        }
        b"deposit" => {
            let [account, amount] = numbers::<2>(text)?;
            Some(Command::Deposit { account, amount })
        }
        b"withdraw" => {
            let [account, amount] = numbers::<2>(text)?;
            Some(Command::Withdraw { account, amount })
        }
        b"check" => check(text),
        b"send" => {
            let [order] = numbers::<1>(text)?;
            Some(Command::Send { order })
        }
        b"drop" => {
            let [order] = numbers::<1>(text)?;
            Some(Command::Drop { order })
        }
        b"fill" => fill(text),
        b"cancel" => {
            let [order] = numbers::<1>(text)?;
            Some(Command::Cancel { order })
        }
        b"figures" => {
            let [account] = numbers::<1>(text)?;
            Some(Command::Figures { account })
        }
        _ => None,
    }
}
