ghost use Rattle.move_tests.specs.MoneyLaws.{cents_measure};

use crate::cents::Cents;
use quantity::interface::Quantity;

impl Quantity for Cents {
    type Row = i32;

    ghost measure = { cents_measure };

    fn zero() -> Cents {
        Cents { cents: 0 }
    }

    fn join(self, other: Cents) -> Option<Cents> {
        Cents::of_cents(self.cents + other.cents)
    }

    fn remainder(self, part: Cents) -> Option<Cents> {
        Cents::of_cents(self.cents - part.cents)
    }

    fn equals(self, other: Cents) -> bool {
        self == other
    }

    fn row(self) -> i32 {
        self.cents
    }

    fn of_row(row: i32) -> Cents {
        Cents::of_cents(row).unwrap_or(Cents::zero())
    }
}
