ghost use Rattle.std.specs.Prelude.{Some};
ghost use Rattle.requests.specs.Texts.{status_text};

use refusals::passage::Passage;
use refusals::refusal::Refusal;
use std::fmt;

/// Who announces.
#[derive(Clone, Copy, PartialEq, Eq, Debug)]
pub enum Side {
    Giver,
    Taker,
}

/// Where a request stands. The first three are unresolved day-ahead requests, the last four are of intraday ones.
#[derive(Clone, Copy, PartialEq, Eq, Debug)]
pub enum Status {
    /// One side has announced.
    WaitingForCounterpart,
    /// Both sides have announced equal quantities.
    BalanceOk,
    /// Both sides have announced, and the quantities differ.
    BalanceError,
    /// The volume has moved at a gate.
    Confirmed,
    /// Nothing moves: with the cause that kept the move from being made, or without one.
    Rejected(Option<Refusal>),
    Waiting,
    Accepted,
    Declined,
    Lapsed,
}

impl fmt::Display for Status {
    ghost output = { λ x. Some (status_text x) };

    fn fmt<W: fmt::Write>(&self, f: &mut fmt::Formatter<W>) -> fmt::Result {
        match self {
            Status::WaitingForCounterpart => write!(f, "Waiting for Counterpart"),
            Status::BalanceOk => write!(f, "Balance OK"),
            Status::BalanceError => write!(f, "Balance Error"),
            Status::Confirmed => write!(f, "Confirmed"),
            Status::Rejected(None) => write!(f, "Rejected"),
            Status::Rejected(Some(refusal)) => write!(f, "Rejected {refusal}"),
            Status::Waiting => write!(f, "Waiting"),
            Status::Accepted => write!(f, "Accepted"),
            Status::Declined => write!(f, "Declined"),
            Status::Lapsed => write!(f, "Lapsed"),
        }
    }
}

/// A request to pass volume from a giver to a taker over a span of quarters.
#[derive(Clone, Copy, PartialEq, Eq, Debug)]
pub struct Request<R: Copy> {
    pub passage: Passage,
    /// The row of the quantity that the giver announced last, if it did.
    pub giving: Option<R>,
    /// The row of the quantity that the taker announced last, if it did.
    pub taking: Option<R>,
    pub status: Status,
}
