ghost use Rattle.std.specs.Prelude.{ℕ, ◌*◌, ◌≤◌};
ghost use Rattle.awards.specs.Accounts.{account_of, most_awards, most_earned};

mod account;
pub mod calls;
pub(crate) mod entering;

use crate::sheet::account::Account;

/// What each provider's awards of a day earn, in fortieths of a cent (one tenth for one quarter at one cent), in which quarters it
/// is exempt, and how many awards there are. An award earns at most 200,000 cents for 10,000 tenths in 100 quarters and two
/// directions, so no sum overflows.
// No `Model`: what a sheet tells is functions, and the value of a model may hold none. The account stands in a file of its own, since the
// definition that `bounded` names imports it.
#[derive(Clone, Copy, PartialEq, Eq, Debug)]
pub struct Sheet {
    accounts: [Account; 32],
    awards: u16,
    ghost few: { awards ≤ most_awards },
    ghost bounded: { (p : ℕ) → (account_of accounts p).earned ≤ awards * most_earned },
}
