//! Reads a rate sheet from standard input, and prints the margin levels of each product in baht per lot.
#![tactic(auto)]

use sheet::layout::{HEADER, put_row};
use sheet::row::read_row;
use std::io;
use std::io::{BufRead, BufReader, BufWriter, Write};
use std::process::ExitCode;

/// Prints the sheet, and names the lines that are no rows on standard error. Fails where there is one.
fn print_sheet(rt: &HostRuntime) -> io::Result<ExitCode> {
    let mut input = BufReader::new(rt.alloc(), rt.stdin())?;
    let mut output = BufWriter::new(rt.alloc(), rt.stdout())?;
    let mut line = Vec::new(rt.alloc());
    let mut text = Vec::new(rt.alloc());
    let mut status = ExitCode::SUCCESS;
    output.write_all(HEADER.as_bytes())?;
    for number in 1..u64::MAX {
        line.clear();
        if input.read_until(b'\n', &mut line)? == 0 {
            break;
        }
        match read_row(&line) {
            Ok(None) => {}
            Ok(Some(row)) => {
                text.clear();
                put_row(&mut text, row)?;
                output.write_all(&text)?;
            }
            Err(fault) => {
                status = ExitCode::FAILURE;
                output.flush()?;
                let _ = eprintln!(rt; "line {number}: {fault}");
            }
        }
    }
    output.flush()?;
    Ok(status)
}

/// Ends with an error where some lines are no rows, the input cannot be read, or the sheet cannot be written.
fn main(rt: HostRuntime) -> ExitCode {
    print_sheet(&rt).unwrap_or_else(|e| {
        let _ = eprintln!(rt; "rates: {e}");
        ExitCode::FAILURE
    })
}
