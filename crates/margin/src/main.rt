//! Runs a script of calls on a house, and prints one answer a line.
#![tactic(auto)]

use desk::session::Session;
use script::answer::{Fault, Reply, put_reply};
use script::line::{ReadError, read};
use std::fs::File;
use std::io::{BufRead, BufReader, BufWriter, Read, Write};
use std::process::ExitCode;
use std::{env, io};

const HELP: &str =
    "margin [SCRIPT]: runs a script of calls on a house, from a file or standard input, and prints one answer a line.

    house NUMBER RULE                     sets the house up; RULE is gross, larger or pairs
    product OUTRIGHT SPREAD               enters a product with its risk margins, in satang a lot
    rates PRODUCT OUTRIGHT SPREAD         replaces its risk margins
    series PRODUCT MULTIPLIER PRICE       enters a series; PRICE in hundredths of a point
    account                               enters an account
    opening                               begins a trading day
    clock MINUTE                          sets the minute of the day
    print SERIES PRICE                    sets the last price of a series
    deposit ACCOUNT AMOUNT                in satang
    withdraw ACCOUNT AMOUNT
    check ACCOUNT SERIES LOTS SECOND|-    tests an order; it answers the order number
    send ORDER      drop ORDER            spends the order's ticket
    fill ORDER PRICE PRICE|-              fills a sent order
    cancel ORDER                          ends a sent order
    closing PRICE ...                     one settlement price for each series
    figures ACCOUNT                       equity, three requirements, free, and the margin call or -

A day:

    house 7 pairs
    product 450000 112500
    series 0 200 83000
    account
    opening
    deposit 0 2000000
    check 0 0 2 -
    send 1
    fill 1 83000 -
    closing 80800
    figures 0

'refused N' is a refusal by its number, 'not now' a call that does not exist in the house's present state, 'unreadable'
a line that is no call. '#' begins a comment.
";

/// What a line is replied; an empty one is not replied to.
fn take_line(
    rt: &HostRuntime,
    session: &mut Session,
    line: &[u8],
    prices: &mut Vec<u64>,
) -> io::Result<Option<Reply>> {
    match read(line, prices) {
        Ok(None) => Ok(None),
        Ok(Some(command)) => Ok(Some(session.next(rt.alloc(), command, prices)?)),
        Err(ReadError::Unreadable) => Ok(Some(Err(Fault::Unreadable))),
        Err(ReadError::OutOfMemory) => Err(io::ErrorKind::OutOfMemory.into()),
    }
}

/// Runs the script, line by line, with one set of buffers for all lines.
fn run_lines<B: Read + Drop, W: Write>(
    rt: &HostRuntime,
    mut input: BufReader<B>,
    output: &mut W,
    session: &mut Session,
) -> io::Result<()> {
    let mut line = Vec::new(rt.alloc());
    let mut prices = Vec::new(rt.alloc());
    let mut answer = Vec::new(rt.alloc());
    for _ in 0..u64::MAX {
        line.clear();
        if input.read_until(b'\n', &mut line)? == 0 {
            break;
        }
        if let Some(reply) = take_line(rt, session, &line, &mut prices)? {
            answer.clear();
            put_reply(&mut answer, reply)?;
            output.write_all(&answer)?;
        }
    }
    Ok(())
}

/// Runs the script, and shuts its house down.
fn run<B: Read + Drop>(rt: &HostRuntime, source: B) -> io::Result<()> {
    let input = BufReader::new(rt.alloc(), source)?;
    let mut output = BufWriter::new(rt.alloc(), rt.stdout())?;
    let mut session = Session::Waiting;
    let outcome = run_lines(rt, input, &mut output, &mut session);
    session.end();
    output.flush()?;
    outcome
}

fn start(rt: &HostRuntime) -> io::Result<()> {
    let Some(word) = env::args(rt)?.nth(1) else {
        return run(rt, rt.stdin());
    };
    if word.as_str() == "--help" {
        return rt.stdout().write_all(HELP.as_bytes());
    }
    run(rt, File::open(rt, word.as_str())?)
}

fn main(rt: HostRuntime) -> ExitCode {
    match start(&rt) {
        Ok(()) => ExitCode::SUCCESS,
        Err(e) => {
            let _ = eprintln!(rt; "margin: {e}");
            ExitCode::FAILURE
        }
    }
}
