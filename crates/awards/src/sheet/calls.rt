ghost use Rattle.std.specs.Prelude.{◌≡◌, ◌*◌, ◌≤◌};
ghost use Rattle.awards.specs.Accounts.{most_awards, most_earned};
ghost use Rattle.awards.specs.Sheets.{view, blank_view};

use crate::sheet::Sheet;
use crate::sheet::account::Account;
use book::range::Position;

impl Sheet {
    /// The sheet of a day without awards.
    pub fn blank() -> Sheet
        ensures { view result ≡ blank_view }
    {
        Sheet {
            accounts: [Account {
                earned: 0,
                exempt: [false; 100],
            }; 32],
            awards: 0,
        }
    }

    /// What a provider earned, zero for a provider above 31.
    pub fn earnings(&self, provider: u8) -> u64
        ensures value { result ≡ (view self.now).earned provider }
        ensures bound { result ≤ (view self.now).awards * most_earned }
    {
        self.accounts
            .get(usize::from(provider))
            .map_or(0, |account| account.earned)
    }

    /// Whether a provider is exempt in a quarter: not where there is no such provider or quarter.
    pub fn is_exempt(&self, provider: u8, quarter: u8) -> bool
        ensures { result ≡ (view self.now).exempt provider quarter }
    {
        Position::new(provider, quarter).is_ok_and(|at| {
            self.accounts[usize::from(at.provider)].exempt[usize::from(at.quarter)]
        })
    }

    /// How many awards there are.
    pub fn award_count(&self) -> u16
        ensures value { result ≡ (view self.now).awards }
        ensures bound { result ≤ most_awards }
    {
        self.awards
    }
}
