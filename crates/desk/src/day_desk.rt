ghost use Rattle.day_calls.specs.Days.{DayState, state_of};
ghost use Rattle.laws.specs.Laws.{Performed, KeepsLaw};

use book::interface::Book;
use day_calls::calls::{Answer, DayCall, LentDayCall, NotDone};
use day_calls::desk::Desk;
use day_steps::gate_calls::gate_step;
use day_steps::openings::{award_step, open_step};
use day_steps::questions::{holding_step, missing_step, status_step};
use day_steps::words::announce_step;
use quantity::interface::Quantity;
use quantity::reserve::ReserveQuantity;
use record_list::interface::Records;
use requests::request::Request;

// Apart from `DayDesk`, since a supply makes days of any quantity, and only calls need a reserve quantity.
/// What holds one day. Contracts know it by its `state`.
pub trait OneDay {
    type Q: Quantity;

    ghost state: { Self → DayState Self.Q Self.Q.Row };
}

/// A desk at which every call of one day can be made.
pub trait DayDesk: OneDay<Q: ReserveQuantity> {
    /// Makes any call of the day. Whatever bureau it is part of, and whatever was called before, the law goes on to hold.
    fn perform(&mut self, call: &LentDayCall<'_, Self::Q>) -> Result<Answer<Self::Q>, NotDone>
        ensures performed { Performed Self.Q.measure Self.Q.tenths_in Self.Q.directions (Self.state self.old) call.now result (Self.state self.new) }
        ensures law { KeepsLaw Self.Q.measure Self.Q.tenths_in Self.Q.directions (Self.state self.old) call.now result (Self.state self.new) };
}

impl<O: Book, B: Book<Q = O::Q>, L: Records<Record = Request<<O::Q as Quantity>::Row>>> OneDay
    for Desk<O, B, L> {
    type Q = O::Q;

    ghost state = { state_of O.holdings O.places O.admission B.holdings L.contents L.places };
}

impl<O: Book, B: Book<Q = O::Q>, L: Records<Record = Request<<O::Q as Quantity>::Row>>> DayDesk
    for Desk<O, B, L>
where
    O::Q: ReserveQuantity,
{
    fn perform(&mut self, call: &LentDayCall<'_, O::Q>) -> Result<Answer<O::Q>, NotDone> {
        let Desk {
            stage,
            obligations,
            bids,
            requests,
            sheet,
        } = self;
        match call {
            DayCall::Open(new) => open_step(stage, obligations, bids, requests, sheet, *new),
            DayCall::Award(award) => award_step(stage, obligations, sheet, award),
            DayCall::Announce(said) => announce_step(stage, requests, *said),
            DayCall::Gate { minute } => gate_step(stage, obligations, requests, *minute),
            DayCall::Holding { provider, quarter } => {
                holding_step(stage, obligations, *provider, *quarter)
            }
            DayCall::Missing { provider, quarter } => {
                missing_step(stage, obligations, bids, sheet, *provider, *quarter)
            }
            DayCall::Status { place } => status_step(stage, requests, *place),
        }
    }
}
