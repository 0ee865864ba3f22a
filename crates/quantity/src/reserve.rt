ghost use Rattle.std.specs.Prelude.{◌≡◌, ℕ, ◌+◌, ◌≤◌};
ghost use Rattle.quantity.specs.Directions.{number};

use crate::direction::Direction;
use crate::interface::Quantity;

/// A quantity that also tells its tenths of a MW in each direction.
pub trait ReserveQuantity: Quantity {
    /// How many directions there are.
    ghost directions: { ℕ };

    /// The tenths in the direction of a number.
    ghost tenths_in: { Self → ℕ → ℕ };

    /// One (up) or two (up and down).
    fn direction_count() -> u8
        ensures value { result ≡ directions }
        ensures range { (1 ≤ result) × (result ≤ 2) };

    /// The tenths in a direction, zero in one that this quantity lacks.
    fn tenths(self, direction: Direction) -> u16
        ensures value { result ≡ tenths_in self (number direction) }
        ensures bound { result ≤ 10000 }
        ensures lacking { directions ≤ number direction → result ≡ 0 };

    // A function, by rule, and no law: who needs the fact of two quantities calls it.
    /// The tenths of the sum of these two, of whichever value stands for it, are the sums of their tenths.
    fn tenths_add_up(self, other: Self)
        ensures { (s : Self) (d : ℕ) → Self.measure.amount s ≡ Self.measure.plus (Self.measure.amount self) (Self.measure.amount other) → tenths_in s d ≡ tenths_in self d + tenths_in other d };
}
