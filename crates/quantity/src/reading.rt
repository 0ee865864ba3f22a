ghost use Rattle.std.specs.Prelude.{◌↔◌, IsTrue};
ghost use Rattle.std.specs.Str.Parse.{IsNumeral};
ghost use Rattle.quantity.specs.Written.{ReadsVolume, ReadsBand};

use crate::afrr::Band;
use crate::fcr::Volume;
use std::str::FromStr;

/// Why a word is no quantity.
#[derive(Clone, Copy, PartialEq, Eq, Debug)]
pub enum QuantityFault {
    /// It has one direction too few or too many.
    WrongDirections,
    /// A number is not written in digits alone.
    NotANumber,
    /// A number is above 10,000 tenths.
    TooLarge,
}

/// Whether a word is a number in digits alone: no sign stands before it.
pub fn is_number(word: &str) -> bool
    ensures { IsTrue result ↔ IsNumeral 10 word.now }
{
    !word.is_empty() && word.bytes().all(|b| b.is_ascii_digit())
}

/// `100`: the tenths up.
impl FromStr for Volume {
    type Err = QuantityFault;

    ghost from_str_gives = { ReadsVolume };

    #[tactic(auto, using(crate::proofs::WrittenLemmas::parse_of_number))]
    fn from_str(word: &str) -> Result<Volume, QuantityFault> {
        if word.contains('/') {
            return Err(QuantityFault::WrongDirections);
        }
        if !is_number(word) {
            return Err(QuantityFault::NotANumber);
        }
        let tenths = word.parse().or(Err(QuantityFault::TooLarge))?;
        Volume::of_tenths(tenths).ok_or(QuantityFault::TooLarge)
    }
}

/// `40/20`: up and down, each written as a volume.
impl FromStr for Band {
    type Err = QuantityFault;

    ghost from_str_gives = { ReadsBand };

    fn from_str(word: &str) -> Result<Band, QuantityFault> {
        let (up, down) = word.split_once('/').ok_or(QuantityFault::WrongDirections)?;
        if down.contains('/') {
            return Err(QuantityFault::WrongDirections);
        }
        let up: Volume = up.parse()?;
        let down: Volume = down.parse()?;
        // Never refused: each part is a volume.
        Band::of_tenths(up.up(), down.up()).ok_or(QuantityFault::TooLarge)
    }
}
