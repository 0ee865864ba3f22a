ghost use Rattle.std.specs.Prelude.{◌≡◌};
ghost use Rattle.day_calls.specs.declared.calls.NotCalled.TheVariants.{NoMemory};
ghost use Rattle.day_calls.specs.declared.calls.NotDone.TheVariants.{Refused, NotCalled as NotMade};

use awards::awarded::Award;
use day::opening::NewDay;
use day::questions::Missing;
use refusals::refusal::Refusal;
use requests::announcement::Announcement;
use requests::request::Status;
use std::alloc::AllocError;

/// A call of one day, with its prices as a `P`: see `LentDayCall`.
#[derive(Clone, Copy, PartialEq, Eq, Debug)]
pub enum DayCall<Q, P> {
    Open(NewDay),
    /// An award at a price for each direction.
    Award(Award<Q, P>),
    Announce(Announcement<Q>),
    /// The first gate in the first stage, the second in the second.
    Gate { minute: i32 },
    Holding { provider: u8, quarter: u8 },
    Missing { provider: u8, quarter: u8 },
    Status { place: usize },
}

/// A call of one day that is lent its prices.
// The slice is an argument of the type: with the slice in the enum itself, the check covers no function that names it at a volume.
pub type LentDayCall<'a, Q> = DayCall<Q, &'a [u32]>;

/// Why a call was not made. This is no refusal: nothing was asked of a day.
#[derive(Clone, Copy, PartialEq, Eq, Debug)]
pub enum NotCalled {
    NoSuchDay,
    NotInThisStage,
    NoMemory,
}

/// What a call of a day answers where it is taken.
#[derive(Clone, Copy, PartialEq, Eq, Debug)]
pub enum Answer<Q> {
    Opened,
    Awarded,
    /// The place of the request that was made or joined.
    Placed(usize),
    GatePassed,
    Held(Q),
    Lacking(Missing),
    Standing(Status),
}

/// Why a call changes nothing.
#[derive(Clone, Copy, PartialEq, Eq, Debug)]
pub enum NotDone {
    Refused(Refusal),
    NotCalled(NotCalled),
}

impl From<Refusal> for NotDone {
    ghost from_gives = { λ refusal e. e ≡ Refused refusal };

    fn from(refusal: Refusal) -> NotDone {
        NotDone::Refused(refusal)
    }
}

impl From<AllocError> for NotDone {
    ghost from_gives = { λ _ e. e ≡ NotMade NoMemory };

    fn from(_: AllocError) -> NotDone {
        NotDone::NotCalled(NotCalled::NoMemory)
    }
}

impl From<NotCalled> for NotDone {
    ghost from_gives = { λ why e. e ≡ NotMade why };

    fn from(why: NotCalled) -> NotDone {
        NotDone::NotCalled(why)
    }
}
