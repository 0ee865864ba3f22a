ghost use Rattle.std.specs.Prelude.{◌≡◌, Some};
ghost use Rattle.script.specs.Faults.{malformed_text, quantity_fault};

use quantity::direction::UnknownDirection;
use quantity::reading::QuantityFault;
use std::fmt;

/// What is wrong with a line that is not understood.
// The faults of a quantity are cases here too, so that every fault of a line is told by one list of words.
#[derive(Clone, Copy, PartialEq, Eq, Debug)]
pub enum Malformed {
    ServiceFirst,
    ServiceAgain,
    BooksOpen,
    UnknownService,
    UnknownBooks,
    NotOnOff,
    UnknownDirection,
    UnknownWord,
    WordMissing,
    WordTooMany,
    NotANumber,
    NumberTooLarge,
    PlacesTooMany,
    LimitTooLarge,
    QuantityTooLarge,
    WrongDirections,
}

impl From<UnknownDirection> for Malformed {
    ghost use Rattle.std.specs.Prelude.{◌≡◌};
    ghost use Rattle.script.specs.declared.malformed.Malformed.TheVariants.{UnknownDirection};

    ghost from_gives = { λ _ what. what ≡ UnknownDirection };

    fn from(_unknown: UnknownDirection) -> Malformed {
        Malformed::UnknownDirection
    }
}

impl From<QuantityFault> for Malformed {
    ghost from_gives = { λ fault what. what ≡ quantity_fault fault };

    fn from(fault: QuantityFault) -> Malformed {
        match fault {
            QuantityFault::WrongDirections => Malformed::WrongDirections,
            QuantityFault::NotANumber => Malformed::NotANumber,
            QuantityFault::TooLarge => Malformed::QuantityTooLarge,
        }
    }
}

impl Malformed {
    // The words of a fault.
    fn words(self) -> &'static str
        ensures { result.now ≡ malformed_text self }
    {
        match self {
            Malformed::ServiceFirst => "the service comes first: service fcr or service afrr",
            Malformed::ServiceAgain => "the service is chosen already",
            Malformed::BooksOpen => "books and limits are chosen before the first call",
            Malformed::UnknownService => "the service is fcr or afrr",
            Malformed::UnknownBooks => "books are full, or sparse with a number of places",
            Malformed::NotOnOff => "limits are on or off",
            Malformed::UnknownDirection => "a direction is up or down",
            Malformed::UnknownWord => "the first word is no call",
            Malformed::WordMissing => "a word is missing",
            Malformed::WordTooMany => "there is a word too many",
            Malformed::NotANumber => "a number is written in digits alone",
            Malformed::NumberTooLarge => "providers and quarters are written 0 to 255",
            Malformed::PlacesTooMany => "a sparse book has at most 65535 places",
            Malformed::LimitTooLarge => "a limit is at most 4294967295 tenths",
            Malformed::QuantityTooLarge => "no quantity has more than 10000 tenths in a direction",
            Malformed::WrongDirections =>
                "a quantity is written 100 in fcr and 40/20 (up/down) in afrr",
        }
    }
}

impl fmt::Display for Malformed {
    ghost output = { λ x. Some (malformed_text x) };

    fn fmt<W: fmt::Write>(&self, f: &mut fmt::Formatter<W>) -> fmt::Result {
        f.write_str(self.words())
    }
}
