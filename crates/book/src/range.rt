ghost use Rattle.std.specs.Prelude.{◌≡◌, true};
ghost use Rattle.book.specs.Grid.{in_range};

use crate::answers::BookRefusal;

/// Where a holding stands: one of the providers 0 to 31 in one of the quarters 0 to 99.
#[derive(Clone, Copy, PartialEq, Eq, Debug)]
pub struct Position {
    pub provider: u8,
    pub quarter: u8,
    ghost inside: { in_range provider quarter ≡ true },
}

impl Position {
    ghost use Rattle.book.specs.Positions.{Placed};

    /// The position of a provider and a quarter, or that there is none.
    pub fn new(provider: u8, quarter: u8) -> Result<Position, BookRefusal>
        ensures { Placed provider quarter result }
    {
        if !in_range(provider, quarter) {
            return Err(BookRefusal::OutsideRange);
        }
        Ok(Position { provider, quarter })
    }
}

/// Whether these are one of the providers 0 to 31 and one of the quarters 0 to 99.
pub fn in_range(provider: u8, quarter: u8) -> bool
    ensures { result ≡ in_range provider quarter }
{
    provider < 32 && quarter < 100
}
