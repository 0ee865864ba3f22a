ghost use Rattle.std.specs.Prelude.{◌≡◌, Some};
ghost use Rattle.script.specs.declared.calls.NotDone.TheVariants.{Book, Span};
ghost use Rattle.script.specs.Texts.{answer_text, not_done_text};

use book::answers::BookRefusal;
use refusals::passage::Passage;
use refusals::refusal::Refusal;
use std::fmt;

/// A change of one holding by a quantity.
#[derive(Clone, Copy, PartialEq, Eq, Debug)]
pub struct HoldingChange<Q> {
    pub provider: u8,
    pub quarter: u8,
    pub quantity: Q,
}

/// A call of a book.
#[derive(Clone, Copy, PartialEq, Eq, Debug)]
pub enum Call<Q> {
    Raise(HoldingChange<Q>),
    Lower(HoldingChange<Q>),
    Move { passage: Passage, quantity: Q },
    Holding { provider: u8, quarter: u8 },
    Free,
}

/// What a call answers that is done.
#[derive(Clone, Copy, PartialEq, Eq, Debug)]
pub enum Answer<Q> {
    Raised,
    Lowered,
    Moved,
    Held(Q),
    FreePlaces(usize),
}

/// Why a call is not done.
#[derive(Clone, Copy, PartialEq, Eq, Debug)]
pub enum NotDone {
    /// One holding is not raised or lowered.
    Book(BookRefusal),
    /// A span is not moved.
    Span(Refusal),
}

impl From<BookRefusal> for NotDone {
    ghost from_gives = { λ refusal not_done. not_done ≡ Book refusal };

    fn from(refusal: BookRefusal) -> NotDone {
        NotDone::Book(refusal)
    }
}

impl From<Refusal> for NotDone {
    ghost from_gives = { λ refusal not_done. not_done ≡ Span refusal };

    fn from(refusal: Refusal) -> NotDone {
        NotDone::Span(refusal)
    }
}

impl<Q: fmt::Display> fmt::Display for Answer<Q> {
    ghost output = { λ x. answer_text Q.output x };

    fn fmt<W: fmt::Write>(&self, f: &mut fmt::Formatter<W>) -> fmt::Result {
        match self {
            Answer::Raised => write!(f, "raised"),
            Answer::Lowered => write!(f, "lowered"),
            Answer::Moved => write!(f, "moved"),
            Answer::Held(quantity) => write!(f, "holding {quantity}"),
            Answer::FreePlaces(places) => write!(f, "free {places}"),
        }
    }
}

impl fmt::Display for NotDone {
    ghost output = { λ x. Some (not_done_text x) };

    fn fmt<W: fmt::Write>(&self, f: &mut fmt::Formatter<W>) -> fmt::Result {
        match self {
            NotDone::Book(refusal) => write!(f, "{refusal}"),
            NotDone::Span(refusal) => write!(f, "{refusal}"),
        }
    }
}
