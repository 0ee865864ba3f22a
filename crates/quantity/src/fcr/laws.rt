ghost use Rattle.quantity.specs.Fcr.{volume_tenths};
ghost use Rattle.quantity.specs.FcrLaws.{volume_measure};

use crate::direction::Direction;
use crate::fcr::Volume;
use crate::interface::Quantity;
use crate::reserve::ReserveQuantity;

impl Quantity for Volume {
    type Row = u16;

    ghost measure = { volume_measure };

    fn zero() -> Volume {
        Volume { tenths: 0 }
    }

    fn join(self, other: Volume) -> Option<Volume> {
        Volume::of_tenths(self.tenths + other.tenths)
    }

    fn remainder(self, part: Volume) -> Option<Volume> {
        Volume::of_tenths(self.tenths.checked_sub(part.tenths)?)
    }

    fn equals(self, other: Volume) -> bool {
        self == other
    }

    fn row(self) -> u16 {
        self.up()
    }

    fn of_row(row: u16) -> Volume {
        Volume::of_tenths(row).unwrap_or(Volume::zero())
    }
}

impl ReserveQuantity for Volume {
    ghost directions = { 1 };

    ghost tenths_in = { volume_tenths };

    fn direction_count() -> u8 {
        1
    }

    fn tenths(self, direction: Direction) -> u16 {
        match direction {
            Direction::Up => self.tenths,
            Direction::Down => 0,
        }
    }

    fn tenths_add_up(self, other: Volume) {}
}
