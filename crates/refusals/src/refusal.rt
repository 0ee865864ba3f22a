ghost use Rattle.std.specs.Prelude.{◌≡◌, Some};
ghost use Rattle.refusals.specs.Numbers.{number};
ghost use Rattle.refusals.specs.Texts.{refusal_text};

use book::answers::Cause;
use std::fmt;

/// Why a call is refused. Each case has its number and its values.
#[derive(Clone, Copy, PartialEq, Eq, Debug)]
pub enum Refusal {
    /// The quarters of a day are not 92, 96 or 100.
    NoSuchDayLength,
    /// The day number is not one of 1 to 31.
    NoSuchDayNumber,
    /// A book or the request list is not empty.
    NotEmpty,
    /// A provider is above 31.
    NoSuchProvider,
    /// A span is backwards or leaves the day, a block is above 6, or a place was never used.
    NoSuchSpan,
    /// Giver and taker are one provider.
    SameProvider,
    /// The quantity is zero.
    ZeroQuantity,
    /// There is not one price for each direction.
    WrongPriceCount,
    /// A price is above 200,000 cents.
    PriceTooLarge,
    /// The minute is before the last one.
    MinuteBeforeLast,
    /// The gate has passed.
    TooLate,
    /// The time has not come.
    TooEarly,
    /// The day has 512 awards.
    TooManyAwards,
    /// No request may change.
    NoRequestToChange,
    /// Every place of the request list is used.
    NoPlaceInList,
    /// A remainder does not fit.
    NoRemainder {
        provider: u8,
        quarter: u8,
    },
    /// A sum does not fit.
    SumDoesNotFit {
        provider: u8,
        quarter: u8,
    },
    /// A sum is not admitted, with the layer's own cause.
    NotAdmitted {
        provider: u8,
        quarter: u8,
        cause: Cause,
    },
    /// There is no free place in the book.
    NoFreePlace,
}

impl Refusal {
    /// The number of the refusal, from 1 to 19, as the rules give it and programs print it.
    pub fn number(self) -> u8
        ensures { result ≡ number self }
    {
        match self {
            Refusal::NoSuchDayLength => 1,
            Refusal::NoSuchDayNumber => 2,
            Refusal::NotEmpty => 3,
            Refusal::NoSuchProvider => 4,
            Refusal::NoSuchSpan => 5,
            Refusal::SameProvider => 6,
            Refusal::ZeroQuantity => 7,
            Refusal::WrongPriceCount => 8,
            Refusal::PriceTooLarge => 9,
            Refusal::MinuteBeforeLast => 10,
            Refusal::TooLate => 11,
            Refusal::TooEarly => 12,
            Refusal::TooManyAwards => 13,
            Refusal::NoRequestToChange => 14,
            Refusal::NoPlaceInList => 15,
            Refusal::NoRemainder { .. } => 16,
            Refusal::SumDoesNotFit { .. } => 17,
            Refusal::NotAdmitted { .. } => 18,
            Refusal::NoFreePlace => 19,
        }
    }
}

impl fmt::Display for Refusal {
    ghost output = { λ x. Some (refusal_text x) };

    fn fmt<W: fmt::Write>(&self, f: &mut fmt::Formatter<W>) -> fmt::Result {
        let number = self.number();
        match *self {
            Refusal::NoRemainder { provider, quarter }
            | Refusal::SumDoesNotFit { provider, quarter } => write!(
                f,
                "{number} provider {provider} quarter {quarter}"
            ),
            Refusal::NotAdmitted {
                provider,
                quarter,
                cause,
            } => write!(f, "{number} provider {provider} quarter {quarter} {cause}"),
            _ => write!(f, "{number}"),
        }
    }
}
