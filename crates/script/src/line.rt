//! What a line of a script says.
ghost use Rattle.std.specs.Prelude.{◌≡◌, [], IfOk, IsErrOf, Some, None};
ghost use Rattle.sheet.specs.Word.{after_blanks};
ghost use Rattle.script.specs.Words.{words};
ghost use Rattle.script.specs.Line.{numbers, closing, of_line, IsResultOf};
ghost use Rattle.script.specs.declared.line.ReadError.TheVariants.{OutOfMemory};

use crate::command::{Command, call_of};
use crate::fields::{before_comment, first_word};
use crate::number::number;
use sheet::word::trimmed;
use std::alloc::AllocFailed;

/// Why a line gives no command.
#[derive(Clone, Copy, PartialEq, Eq, Debug)]
pub enum ReadError {
    /// The line names no call, or the words after the name are not those of its call.
    Unreadable,
    OutOfMemory,
}

impl<T: Drop> From<AllocFailed<T>> for ReadError {
    ghost from_gives = { λ _ e. e ≡ OutOfMemory };

    fn from(_e: AllocFailed<T>) -> ReadError {
        ReadError::OutOfMemory
    }
}

/// Reads the numbers of all words of a text, which the list then holds.
fn read_numbers(text: &[u8], list: &mut Vec<u64>) -> Result<(), ReadError>
    requires { after_blanks text.now ≡ text.now }
    ensures ok { IfOk result (λ _. numbers (words text.now) ≡ Some list.new.items) }
    ensures unreadable { IsErrOf result ReadError.Unreadable → numbers (words text.now) ≡ None }
{
    list.clear();
    for word in text
        .split(|b| b.is_ascii_whitespace())
        .filter(|w| !w.is_empty())
    {
        list.push(number(word).ok_or(ReadError::Unreadable)?)?;
    }
    Ok(())
}

/// The closing of a day at the prices that the words say, which the list then holds; where a word is no number, the list is empty.
fn closing(text: &[u8], kept: &mut Vec<u64>) -> Result<Option<Command>, ReadError>
    requires { after_blanks text.now ≡ text.now }
    ensures { ¬ IsErrOf result ReadError.OutOfMemory → IsResultOf (closing (words text.now)) result kept.new.items }
{
    match read_numbers(text, kept) {
        Ok(()) => Ok(Some(Command::Closing)),
        Err(e) => {
            kept.clear();
            Err(e)
        }
    }
}

/// The command of a line, or none where the line has no word. The list then holds the prices of a closing, and is empty after any
/// other line.
pub fn read(line: &[u8], prices: &mut Vec<u64>) -> Result<Option<Command>, ReadError>
    ensures { ¬ IsErrOf result ReadError.OutOfMemory → IsResultOf (of_line line.now) result prices.new.items }
{
    prices.clear();
    let Some((name, rest)) = first_word(trimmed(before_comment(line))) else {
        return Ok(None);
    };
    if name == b"closing".as_slice() {
        return closing(rest, prices);
    }
    let command = call_of(name, rest).ok_or(ReadError::Unreadable)?;
    Ok(Some(command))
}
