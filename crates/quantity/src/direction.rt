ghost use Rattle.std.specs.Prelude.{Some};
ghost use Rattle.quantity.specs.Directions.{text};
ghost use Rattle.quantity.specs.Reading.{Reads};

use std::fmt;
use std::str::FromStr;

/// A direction of a reserve: up is the first, down the second.
#[derive(Clone, Copy, PartialEq, Eq, Debug)]
pub enum Direction {
    Up,
    Down,
}

impl fmt::Display for Direction {
    ghost output = { λ x. Some (text x) };

    fn fmt<W: fmt::Write>(&self, f: &mut fmt::Formatter<W>) -> fmt::Result {
        match *self {
            Direction::Up => write!(f, "up"),
            Direction::Down => write!(f, "down"),
        }
    }
}

/// A word that is no direction.
#[derive(Clone, Copy, PartialEq, Eq, Debug)]
pub struct UnknownDirection;

impl FromStr for Direction {
    type Err = UnknownDirection;

    ghost from_str_gives = { Reads };

    fn from_str(word: &str) -> Result<Direction, UnknownDirection> {
        match word {
            "up" => Ok(Direction::Up),
            "down" => Ok(Direction::Down),
            _ => Err(UnknownDirection),
        }
    }
}
