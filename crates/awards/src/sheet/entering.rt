ghost use Rattle.std.specs.Prelude.{◌≡◌, true};
ghost use Rattle.awards.specs.Sheets.{view, entered, enterable};

use crate::sheet::Sheet;
use refusals::span::Provider;

/// How many awards a day has at most.
pub const MOST_AWARDS: u16 = 512;

impl Sheet {
    // Enters an award of a provider.
    pub(crate) fn enter(&mut self, provider: Provider, amount: u64)
        requires { enterable provider.number amount (view self.old) ≡ true }
        ensures { view self.new ≡ entered provider.number amount (view self.old) }
    {
        self.awards += 1;
        let account = &mut self.accounts[usize::from(provider.number)];
        account.earned += amount;
    }
}
