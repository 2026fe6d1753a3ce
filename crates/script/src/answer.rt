//! What calls are answered, and how an answer is printed.
ghost use Rattle.std.specs.Prelude.{◌≡◌, ◌∷◌, ◌++◌, Some, OnOk};
ghost use Rattle.script.specs.Answers.{ok_line, ok_number_line, refused_line, not_now_line, unreadable_line};
ghost use Rattle.script.specs.Answers.{requirement_fields, call_fields, any_call_fields, figures_fields, figures_line, answer_text, fault_text, reply_line};
ghost use Rattle.script.specs.declared.answer.Fault.TheVariants.{Refused};

use book::account::{Figures, MarginCall};
use book::refusal::Refusal;
use itoa::{Buffer, Integer};
use std::alloc::AllocError;
use std::fmt;

/// What a granted call answers.
#[derive(Clone, Copy, PartialEq, Eq, Debug)]
pub enum Answer {
    Done,
    /// The number of what was entered.
    Entered(u64),
    /// An order number.
    Ordered(u64),
    Told(Figures),
}

impl fmt::Display for Answer {
    ghost output = { λ answer. Some (answer_text answer) };

    fn fmt<W: fmt::Write>(&self, f: &mut fmt::Formatter<W>) -> fmt::Result {
        match *self {
            Answer::Done => write!(f, "ok"),
            Answer::Entered(number) | Answer::Ordered(number) => write!(f, "ok {number}"),
            Answer::Told(
                Figures {
                    equity,
                    initial,
                    maintenance,
                    force,
                    free,
                    call,
                },
            ) => write!(
                f,
                "ok {equity} {initial} {maintenance} {force} {free}{}",
                CallFields(call)
            ),
        }
    }
}

/// What a margin call holds, or a minus where there is none, each after a blank.
#[derive(Clone, Copy, PartialEq, Eq, Debug)]
struct CallFields(Option<MarginCall>);

impl fmt::Display for CallFields {
    ghost output = { λ call. Some (any_call_fields call.0) };

    fn fmt<W: fmt::Write>(&self, f: &mut fmt::Formatter<W>) -> fmt::Result {
        match self.0 {
            Some(
                MarginCall {
                    amount,
                    credit,
                    age,
                    low,
                },
            ) => {
                let mark = if low { "low" } else { "high" };
                write!(f, " {amount} {credit} {age} {mark}")
            }
            None => write!(f, " -"),
        }
    }
}

/// Why a call of a script is not granted.
#[derive(Clone, Copy, PartialEq, Eq, Debug)]
pub enum Fault {
    Refused(Refusal),
    /// The call does not exist in the house's present state.
    NotNow,
    /// It is no call, no house is set up yet, or one is there already.
    Unreadable,
}

impl From<Refusal> for Fault {
    ghost from_gives = { λ refusal fault. fault ≡ Refused refusal };

    fn from(refusal: Refusal) -> Fault {
        Fault::Refused(refusal)
    }
}

impl fmt::Display for Fault {
    ghost output = { λ fault. Some (fault_text fault) };

    fn fmt<W: fmt::Write>(&self, f: &mut fmt::Formatter<W>) -> fmt::Result {
        match *self {
            Fault::Refused(why) => write!(f, "refused {}", u8::from(why)),
            Fault::NotNow => write!(f, "not now"),
            Fault::Unreadable => write!(f, "unreadable"),
        }
    }
}

/// What a call of a script is answered.
pub type Reply = Result<Answer, Fault>;

/// Adds a blank and a number.
fn put_field<I: Integer>(out: &mut Vec<u8>, number: I) -> Result<(), AllocError>
    ensures { OnOk result (out.new.items ≡ out.old.items ++ 32 ∷ I.text number) }
{
    let mut digits = Buffer::new();
    out.push(b' ')?;
    out.extend_from_slice(digits.format(number).as_bytes())
}

/// Adds the line of a granted call.
pub fn put_ok(out: &mut Vec<u8>) -> Result<(), AllocError>
    ensures { OnOk result (out.new.items ≡ out.old.items ++ ok_line) }
{
    out.extend_from_slice(b"ok\n")
}

/// Adds the line of a granted call that answers a number.
pub fn put_ok_number(out: &mut Vec<u8>, number: u64) -> Result<(), AllocError>
    ensures { OnOk result (out.new.items ≡ out.old.items ++ ok_number_line number) }
{
    out.extend_from_slice(b"ok")?;
    put_field(out, number)?;
    out.extend_from_slice(b"\n")
}

/// Adds the three requirements.
fn put_requirements(out: &mut Vec<u8>, figures: Figures) -> Result<(), AllocError>
    ensures { OnOk result (out.new.items ≡ out.old.items ++ requirement_fields figures) }
{
    put_field(out, figures.initial)?;
    put_field(out, figures.maintenance)?;
    put_field(out, figures.force)
}

/// Adds what a margin call holds.
fn put_call(out: &mut Vec<u8>, call: MarginCall) -> Result<(), AllocError>
    ensures { OnOk result (out.new.items ≡ out.old.items ++ call_fields call) }
{
    put_field(out, call.amount)?;
    put_field(out, call.credit)?;
    put_field(out, call.age)?;
    if call.low {
        out.extend_from_slice(b" low")
    } else {
        out.extend_from_slice(b" high")
    }
}

/// Adds a margin call, or a minus where there is none.
fn put_any_call(out: &mut Vec<u8>, call: Option<MarginCall>) -> Result<(), AllocError>
    ensures { OnOk result (out.new.items ≡ out.old.items ++ any_call_fields call) }
{
    match call {
        Some(call) => put_call(out, call),
        None => out.extend_from_slice(b" -"),
    }
}

/// Adds the figures of an account, each after a blank.
fn put_figures_fields(out: &mut Vec<u8>, figures: Figures) -> Result<(), AllocError>
    ensures { OnOk result (out.new.items ≡ out.old.items ++ figures_fields figures) }
{
    put_field(out, figures.equity)?;
    put_requirements(out, figures)?;
    put_field(out, figures.free)?;
    put_any_call(out, figures.call)
}

/// Adds the line of the figures of an account.
pub fn put_figures(out: &mut Vec<u8>, figures: Figures) -> Result<(), AllocError>
    ensures { OnOk result (out.new.items ≡ out.old.items ++ figures_line figures) }
{
    out.extend_from_slice(b"ok")?;
    put_figures_fields(out, figures)?;
    out.extend_from_slice(b"\n")
}

/// Adds the line of a refusal.
pub fn put_refused(out: &mut Vec<u8>, refusal: Refusal) -> Result<(), AllocError>
    ensures { OnOk result (out.new.items ≡ out.old.items ++ refused_line refusal) }
{
    out.extend_from_slice(b"refused")?;
    put_field(out, u8::from(refusal))?;
    out.extend_from_slice(b"\n")
}

/// Adds the line of a call that does not exist in the house's present state.
pub fn put_not_now(out: &mut Vec<u8>) -> Result<(), AllocError>
    ensures { OnOk result (out.new.items ≡ out.old.items ++ not_now_line) }
{
    out.extend_from_slice(b"not now\n")
}

/// Adds the line of a line that is no call.
pub fn put_unreadable(out: &mut Vec<u8>) -> Result<(), AllocError>
    ensures { OnOk result (out.new.items ≡ out.old.items ++ unreadable_line) }
{
    out.extend_from_slice(b"unreadable\n")
}

/// Adds the line of a reply.
pub fn put_reply(out: &mut Vec<u8>, reply: Reply) -> Result<(), AllocError>
    ensures { OnOk result (out.new.items ≡ out.old.items ++ reply_line reply) }
{
    match reply {
        Ok(Answer::Done) => put_ok(out),
        Ok(Answer::Entered(number) | Answer::Ordered(number)) => put_ok_number(out, number),
        Ok(Answer::Told(figures)) => put_figures(out, figures),
        Err(Fault::Refused(why)) => put_refused(out, why),
        Err(Fault::NotNow) => put_not_now(out),
        Err(Fault::Unreadable) => put_unreadable(out),
    }
}
