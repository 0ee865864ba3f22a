ghost use Rattle.std.specs.Prelude.{◌≡◌};
ghost use Rattle.requests.specs.Requests.{balance, spoken};

use crate::request::{Request, Side, Status};
use quantity::interface::Quantity;

/// The status of what both sides said.
pub fn balance_of<Q: Quantity>(giving: Option<Q::Row>, taking: Option<Q::Row>) -> Status
    ensures { result ≡ balance Q.measure giving taking }
{
    let (Some(given), Some(taken)) = (giving, taking) else {
        return Status::WaitingForCounterpart;
    };
    if Q::of_row(given).equals(Q::of_row(taken)) {
        Status::BalanceOk
    } else {
        Status::BalanceError
    }
}

/// The request after a side has announced a quantity: a later word replaces the earlier one of that side.
pub fn announced<Q: Quantity>(request: Request<Q::Row>, side: Side, quantity: Q) -> Request<Q::Row>
    ensures { result ≡ spoken Q.measure side (Q.measure.row quantity) request }
{
    let word = Some(quantity.row());
    let (giving, taking) = match side {
        Side::Giver => (word, request.taking),
        Side::Taker => (request.giving, word),
    };
    Request {
        giving,
        taking,
        status: balance_of::<Q>(giving, taking),
        ..request
    }
}
