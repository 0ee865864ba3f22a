ghost use Rattle.std.specs.Prelude.{◌≡◌};
ghost use Rattle.quantity.specs.Directions.{in_direction};

use crate::direction::Direction;

/// One value for each direction.
#[derive(Clone, Copy, PartialEq, Eq, Debug)]
pub struct UpDown<T> {
    pub up: T,
    pub down: T,
}

impl<T: Copy> UpDown<T> {
    /// The value in a direction.
    pub fn get(self, direction: Direction) -> T
        ensures { result ≡ in_direction self.up self.down direction }
    {
        match direction {
            Direction::Up => self.up,
            Direction::Down => self.down,
        }
    }

    /// Replaces the value in a direction.
    pub fn set(&mut self, direction: Direction, value: T)
        ensures up { self.new.up ≡ in_direction value self.old.up direction }
        ensures down { self.new.down ≡ in_direction self.old.down value direction }
    {
        match direction {
            Direction::Up => self.up = value,
            Direction::Down => self.down = value,
        }
    }
}
