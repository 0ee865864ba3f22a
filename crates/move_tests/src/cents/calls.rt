ghost use Rattle.std.specs.Prelude.{◌≡◌};
ghost use Rattle.move_tests.specs.Money.{cents_of};

use crate::cents::Cents;

impl Cents {
    /// The sum of this many cents, or `None` outside the bounds: there is none.
    pub fn of_cents(cents: i32) -> Option<Cents>
        ensures { result ≡ cents_of cents }
    {
        if cents.unsigned_abs() > 1_000_000 {
            return None;
        }
        Some(Cents { cents })
    }

    pub fn count(self) -> i32
        ensures { result ≡ self.cents }
    {
        self.cents
    }
}
