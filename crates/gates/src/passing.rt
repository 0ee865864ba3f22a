ghost use Rattle.std.specs.Prelude.{◌≡◌};
ghost use Rattle.std.specs.List.{slice_get};
ghost use Rattle.std.specs.Result.{result_err};
ghost use Rattle.book.specs.Grid.{amounts};
ghost use Rattle.book.specs.Rest.{ChangesHoldings};
ghost use Rattle.record_list.specs.Lists.{ListBecomes};
ghost use Rattle.requests.specs.Announcing.{changed_at};
ghost use Rattle.gates.specs.Gates.{AlikeOver, passing, outcome, closed, cause, moved_on, settled, passed_on, passed_at, after_moves, gated, Judged};

use crate::gate::Gate;
use book::interface::Book;
use quantity::interface::Quantity;
use record_list::interface::Records;
use refusals::refusal::Refusal;
use requests::request::{Request, Status};
use span_moves::spans::move_span;

// The quantity that passes: what the giver announced last.
fn passing_quantity<Q: Quantity>(giving: Option<Q::Row>) -> Q
    ensures { result ≡ passing Q.measure giving }
{
    // A closure: of the function named alone the check makes no proof.
    giving.map_or(Q::zero(), |row| Q::of_row(row))
}

// The status after a gate of a request that does not move.
fn closed_status(gate: Gate, status: Status) -> Status
    ensures { result ≡ closed gate status }
{
    match status {
        Status::WaitingForCounterpart | Status::BalanceError if gate == Gate::Second => {
            Status::Rejected(None)
        }
        _ => status,
    }
}

// How a request stands after its move was made or refused. A function: a `From` of a `Result` would say less by its name.
fn status_of_move(made: Result<(), Refusal>) -> Status
    ensures { result ≡ outcome (result_err made) }
{
    match made {
        Ok(()) => Status::Confirmed,
        Err(cause) => Status::Rejected(Some(cause)),
    }
}

// Makes the move of a balanced request, and tells how it stands then.
// Its answer is that of all holdings of the same amounts.
#[tactic(auto, using(crate::proofs::Moved::left_alike), unfolding(span_moves::specs::Moves::move_after))]
fn make_move<O: Book>(obligations: &mut O, request: Request<<O::Q as Quantity>::Row>) -> Status
    ensures status { AlikeOver O.Q.measure (O.holdings obligations.old) (λ other. result ≡ outcome (cause O.Q.measure (O.places obligations.old) (O.admission obligations.old) other request)) }
    ensures after { AlikeOver O.Q.measure (O.holdings obligations.old) (λ other. amounts O.Q.measure (O.holdings obligations.new) ≡ amounts O.Q.measure (moved_on O.Q.measure (O.places obligations.old) (O.admission obligations.old) other request)) }
    ensures rest { ChangesHoldings O.places O.admission O.layer_number obligations.old obligations.new }
{
    let quantity = passing_quantity(request.giving);
    status_of_move(move_span(obligations, request.passage, quantity))
}

// Decides one request.
fn settle_request<O: Book>(
    obligations: &mut O,
    gate: Gate,
    request: Request<<O::Q as Quantity>::Row>,
) -> Request<<O::Q as Quantity>::Row>
    ensures request { AlikeOver O.Q.measure (O.holdings obligations.old) (λ other. result ≡ settled O.Q.measure (O.places obligations.old) (O.admission obligations.old) gate other request) }
    ensures after { AlikeOver O.Q.measure (O.holdings obligations.old) (λ other. amounts O.Q.measure (O.holdings obligations.new) ≡ amounts O.Q.measure (passed_on O.Q.measure (O.places obligations.old) (O.admission obligations.old) other request)) }
    ensures rest { ChangesHoldings O.places O.admission O.layer_number obligations.old obligations.new }
{
    let status = match request.status {
        Status::BalanceOk => make_move(obligations, request),
        status => closed_status(gate, status),
    };
    Request { status, ..request }
}

// Decides the request at a place.
fn settle_at<O: Book, L: Records<Record = Request<<O::Q as Quantity>::Row>>>(
    obligations: &mut O,
    requests: &mut L,
    gate: Gate,
    place: usize,
)
    ensures requests { AlikeOver O.Q.measure (O.holdings obligations.old) (λ other. L.contents requests.new ≡ changed_at (settled O.Q.measure (O.places obligations.old) (O.admission obligations.old) gate other) (L.contents requests.old) place) }
    ensures after { AlikeOver O.Q.measure (O.holdings obligations.old) (λ other. amounts O.Q.measure (O.holdings obligations.new) ≡ amounts O.Q.measure (passed_at O.Q.measure (O.places obligations.old) (O.admission obligations.old) other (slice_get (L.contents requests.old) place))) }
    ensures rest { ChangesHoldings O.places O.admission O.layer_number obligations.old obligations.new }
    ensures room { L.places requests.new ≡ L.places requests.old }
{
    if let Some(request) = requests.at(place) {
        let settled = settle_request(obligations, gate, request);
        requests.replace(place, settled);
    }
}

/// Takes every balanced request in list order: its move is made, or a cause keeps it from being made and is told by its status.
/// The second gate also rejects every other unresolved request, without a cause.
#[tactic(auto, using(crate::proofs::Lists::midway_start, crate::proofs::Lists::midway_end, crate::proofs::Lists::settled_next, crate::proofs::Lists::moved_start, crate::proofs::Lists::moved_next))]
pub fn pass_gate<O: Book, L: Records<Record = Request<<O::Q as Quantity>::Row>>>(
    obligations: &mut O,
    requests: &mut L,
    gate: Gate,
)
    ensures requests { ListBecomes L.contents L.places requests.old requests.new (gated O.Q.measure (O.places obligations.old) (O.admission obligations.old) gate (O.holdings obligations.old) (L.contents requests.old)) }
    ensures after { amounts O.Q.measure (O.holdings obligations.new) ≡ amounts O.Q.measure (after_moves O.Q.measure (O.places obligations.old) (O.admission obligations.old) (O.holdings obligations.old) (L.contents requests.old)) }
    ensures judged { Judged O.Q.measure (O.places obligations.old) (O.admission obligations.old) gate (O.holdings obligations.old) (L.contents requests.old) (L.contents requests.new) }
    ensures rest { ChangesHoldings O.places O.admission O.layer_number obligations.old obligations.new }
{
    // By places: the interface of lists lends no `&mut` to a record, see `replace`.
    for place in 0..requests.count() {
        settle_at(obligations, requests, gate, place);
    }
}
