ghost use Rattle.quantity.specs.Afrr.{band_tenths};
ghost use Rattle.quantity.specs.AfrrLaws.{band_measure};

use crate::afrr::{Band, BandRow};
use crate::direction::Direction;
use crate::interface::Quantity;
use crate::reserve::ReserveQuantity;

impl Quantity for Band {
    type Row = BandRow;

    ghost measure = { band_measure };

    fn zero() -> Band {
        Band { up: 0, down: 0 }
    }

    fn join(self, other: Band) -> Option<Band> {
        Band::of_tenths(self.up + other.up, self.down + other.down)
    }

    fn remainder(self, part: Band) -> Option<Band> {
        let up = self.up.checked_sub(part.up)?;
        let down = self.down.checked_sub(part.down)?;
        Band::of_tenths(up, down)
    }

    fn equals(self, other: Band) -> bool {
        self == other
    }

    // Field by field: the row is of another type, without a bound.
    fn row(self) -> BandRow {
        BandRow {
            up: self.up,
            down: self.down,
        }
    }

    fn of_row(row: BandRow) -> Band {
        // By a match and not by `unwrap_or`, of which the compiler makes slower code where rows are counted.
        match Band::of_tenths(row.up, row.down) {
            Some(band) => band,
            None => Band::zero(),
        }
    }
}

impl ReserveQuantity for Band {
    ghost directions = { 2 };

    ghost tenths_in = { band_tenths };

    fn direction_count() -> u8 {
        2
    }

    fn tenths(self, direction: Direction) -> u16 {
        self.row().get(direction)
    }

    fn tenths_add_up(self, other: Band) {}
}
