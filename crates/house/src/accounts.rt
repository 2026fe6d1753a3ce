//! Looking an account up, and putting it back.
ghost use Rattle.std.specs.Prelude.{◌≡◌, ◌<◌, vec_len, Ok, Err, IfOk, if◌then◌else◌};
ghost use Rattle.account.specs.Bounds.{Sound};
ghost use Rattle.book.specs.declared.refusal.Refusal.TheVariants.{Unknown};
ghost use Rattle.book.specs.House.{account_at, has_account, with_account};
ghost use Rattle.house.specs.View.{trading, SoundIn};

use crate::house::House;
use crate::listing::is_entered;
use book::account::Account;
use book::refusal::Refusal;
use rules::rule::MarginRule;

impl<R: MarginRule> House<R> {
    /// An account that is entered.
    #[tactic(auto, using(crate::proofs::Facts::bounded))]
    pub(crate) fn account_at(&self, account: usize) -> Account
        requires { account < vec_len self.now.accounts }
        ensures value { result ≡ account_at (trading R.meaning self.now) account }
        ensures sound { SoundIn self.now result }
        ensures small { Sound (vec_len self.now.market.series) result }
    {
        self.accounts[account]
    }

    /// An account by its number, or refusal 1 where it is not entered.
    pub(crate) fn entered(&self, account: u64) -> Result<Account, Refusal>
        ensures value { result ≡ (if has_account (trading R.meaning self.now) account then Ok (account_at (trading R.meaning self.now) account) else Err Unknown) }
        ensures sound { IfOk result (SoundIn self.now) }
        ensures small { IfOk result (Sound (vec_len self.now.market.series)) }
    {
        if is_entered(&self.accounts, account) {
            Ok(self.account_at(account as usize))
        } else {
            Err(Refusal::Unknown)
        }
    }

    /// An account takes the place of the one that is there.
    pub(crate) fn put(&mut self, account: usize, after: Account)
        requires there { account < vec_len self.old.accounts }
        requires sound { SoundIn self.old after }
        ensures { trading R.meaning self.new ≡ with_account account after (trading R.meaning self.old) }
    {
        self.accounts[account] = after;
    }
}
