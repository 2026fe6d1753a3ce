//! Accounts: cash and figures.
ghost use Rattle.std.specs.Prelude.{◌≡◌, pos, ◌+ℤ◌, if◌then◌else◌, Some, None, vec_len, int_le};
ghost use Rattle.account.specs.Bounds.{Sound};
ghost use Rattle.account.specs.View.{the_market};
ghost use Rattle.book.specs.House.{cash_fits};
ghost use Rattle.book.specs.Orders.{free};
ghost use Rattle.book.specs.Call.{Clock, Deposit, Withdrawal, Figures as FiguresCall};
ghost use Rattle.book.specs.Step.{step};
ghost use Rattle.book.specs.TradingCalls.{amount_in_range, with_cash};
ghost use Rattle.house.specs.Reply.{done, told};
ghost use Rattle.house.specs.View.{trading, closed};

use crate::house::House;
use account::calls::credited;
use account::settle::cash_fits;
use book::account::{Account, Figures, MarginCall};
use book::refusal::Refusal;
use rules::rule::MarginRule;

/// The last minute of a day.
const LAST_MINUTE: u64 = 1_439;

impl<R: MarginRule> House<R> {
    /// Sets the minute of the day.
    pub fn clock(&mut self, minute: u64) -> Result<(), Refusal>
        ensures { step (trading R.meaning self.old) (Clock minute) ≡ (done result, trading R.meaning self.new) }
    {
        if minute > LAST_MINUTE {
            return Err(Refusal::OutOfRange);
        }
        if minute < self.minute as u64 {
            return Err(Refusal::EarlierMinute);
        }
        self.minute = minute as u32;
        Ok(())
    }
}

/// The most that is deposited or withdrawn at once, in satang.
const MAX_AMOUNT: u64 = 1_000_000_000_000;

fn amount_in_range(amount: u64) -> bool
    ensures { result ≡ amount_in_range amount }
{
    (1..=MAX_AMOUNT).contains(&amount)
}

/// Cash with an amount added, or taken from it, unless it would pass its limit.
fn changed(cash: i64, by: i64) -> Option<i64>
    ensures { result ≡ (if cash_fits (cash +ℤ by) then Some (cash +ℤ by) else None) }
{
    let after = cash as i128 + by as i128;
    if cash_fits(after) {
        Some(after as i64)
    } else {
        None
    }
}

/// An account with other cash and another call.
fn with_cash(account: &Account, cash: i64, call: Option<MarginCall>) -> Account
    ensures { result ≡ with_cash cash call account.now }
{
    Account {
        cash,
        call,
        ..*account
    }
}

impl<R: MarginRule> House<R> {
    /// Adds to an account's cash, and to the credit of its open call.
    #[tactic(auto, using(crate::proofs::Keeps::keeps_cash, crate::proofs::CashLimits::added_fits))]
    pub fn deposit(&mut self, account: u64, amount: u64) -> Result<(), Refusal>
        ensures { step (trading R.meaning self.old) (Deposit account amount) ≡ (done result, trading R.meaning self.new) }
    {
        let before = self.entered(account)?;
        if !amount_in_range(amount) {
            return Err(Refusal::OutOfRange);
        }
        let cash = changed(before.cash, amount as i64).ok_or(Refusal::CashLimit)?;
        let after = with_cash(&before, cash, credited(before.call, amount));
        self.put(account as usize, after);
        Ok(())
    }

    /// Whether an amount is free.
    pub(crate) fn has_free(&self, account: &Account, amount: u64) -> bool
        requires { Sound (vec_len self.now.market.series) account.now }
        ensures { result ≡ int_le (pos amount) (free (the_market R.meaning self.now.market) account.now) }
    {
        amount as i128 <= self.market.free(account)
    }

    /// Takes from an account's cash, with no call open and no more than is free.
    #[tactic(auto, using(crate::proofs::Keeps::keeps_cash, crate::proofs::CashLimits::taken_fits))]
    pub fn withdraw(&mut self, account: u64, amount: u64) -> Result<(), Refusal>
        ensures { step (trading R.meaning self.old) (Withdrawal account amount) ≡ (done result, trading R.meaning self.new) }
    {
        let before = self.entered(account)?;
        if !amount_in_range(amount) {
            return Err(Refusal::OutOfRange);
        }
        if before.call.is_some() {
            return Err(Refusal::CallOpen);
        }
        if !self.has_free(&before, amount) {
            return Err(Refusal::ExceedsFree);
        }
        let cash = changed(before.cash, -(amount as i64)).ok_or(Refusal::CashLimit)?;
        let after = with_cash(&before, cash, before.call);
        self.put(account as usize, after);
        Ok(())
    }

    /// Tells an account's figures.
    pub fn figures(&self, account: u64) -> Result<Figures, Refusal>
        ensures trading { step (trading R.meaning self.now) (FiguresCall account) ≡ (told result, trading R.meaning self.now) }
        ensures closed { step (closed R.meaning self.now) (FiguresCall account) ≡ (told result, closed R.meaning self.now) }
    {
        let found = self.entered(account)?;
        Ok(self.market.figures(&found))
    }
}
