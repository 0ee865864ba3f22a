ghost use Rattle.std.specs.Prelude.{◌≡◌, Some};
ghost use Rattle.book.specs.declared.answers.BookRefusal.TheVariants.{NotAdmitted};
ghost use Rattle.book.specs.Texts.{cause_text, refusal_text};

use quantity::direction::Direction;
use std::fmt;

/// Why a layer does not admit a quantity.
#[derive(Clone, Copy, PartialEq, Eq, Debug)]
pub enum Cause {
    /// The quantity is above the limit that this layer keeps for this direction.
    Limit { layer: u8, direction: Direction },
}

/// Why a book does not change a holding.
// Of its own beside the refusals of calls: the caller named provider and quarter, and outside the range is one case for both.
#[derive(Clone, Copy, PartialEq, Eq, Debug)]
pub enum BookRefusal {
    OutsideRange,
    NoRemainder,
    SumDoesNotFit,
    NotAdmitted(Cause),
    NoFreePlace,
}

impl From<Cause> for BookRefusal {
    ghost from_gives = { λ cause refusal. refusal ≡ NotAdmitted cause };

    fn from(cause: Cause) -> BookRefusal {
        BookRefusal::NotAdmitted(cause)
    }
}

impl fmt::Display for Cause {
    ghost output = { λ x. Some (cause_text x) };

    fn fmt<W: fmt::Write>(&self, f: &mut fmt::Formatter<W>) -> fmt::Result {
        match *self {
            Cause::Limit { layer, direction } => write!(f, "layer {layer} limit {direction}"),
        }
    }
}

impl fmt::Display for BookRefusal {
    ghost output = { λ x. Some (refusal_text x) };

    fn fmt<W: fmt::Write>(&self, f: &mut fmt::Formatter<W>) -> fmt::Result {
        match *self {
            BookRefusal::OutsideRange => write!(f, "outside-range"),
            BookRefusal::NoRemainder => write!(f, "no-remainder"),
            BookRefusal::SumDoesNotFit => write!(f, "sum-does-not-fit"),
            BookRefusal::NotAdmitted(cause) => write!(f, "not-admitted {cause}"),
            BookRefusal::NoFreePlace => write!(f, "no-free-place"),
        }
    }
}
