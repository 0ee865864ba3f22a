ghost use Rattle.std.specs.Prelude.{◌≡◌};
ghost use Rattle.std.specs.List.{position, slice_get};
ghost use Rattle.requests.specs.Requests.{joins, matching, holds_of};

use crate::request::{Request, Status};
use record_list::interface::Records;
use refusals::passage::Passage;

/// Which requests an announcement may join.
#[derive(Clone, Copy, PartialEq, Eq, Debug)]
pub enum Joining {
    /// Every unresolved one.
    Unresolved,
    /// Only one whose two sides do not agree yet.
    NotBalanced,
}

/// Whether an announcement may join a request of this status.
pub fn may_join(joining: Joining, status: Status) -> bool
    ensures { result ≡ joins joining status }
{
    matches!(
        (joining, status),
        (_, Status::WaitingForCounterpart | Status::BalanceError)
            | (Joining::Unresolved, Status::BalanceOk)
    )
}

// Whether a request is of this passage and may be joined.
fn is_match<R: Copy>(request: &Request<R>, joining: Joining, passage: Passage) -> bool
    ensures { result ≡ matching joining passage request.now }
{
    request.passage == passage && may_join(joining, request.status)
}

// Whether the request at a place is of this passage and may be joined.
fn is_match_at<R: Copy, L: Records<Record = Request<R>>>(
    list: &L,
    place: usize,
    joining: Joining,
    passage: Passage,
) -> bool
    ensures { result ≡ holds_of (matching joining passage) (slice_get (L.contents list.now) place) }
{
    match list.at(place) {
        Some(request) => is_match(&request, joining, passage),
        None => false,
    }
}

/// The place of the first request of this passage that may be joined.
pub fn find_request<R: Copy, L: Records<Record = Request<R>>>(
    list: &L,
    joining: Joining,
    passage: Passage,
) -> Option<usize>
    ensures { result ≡ position (matching joining passage) (L.contents list.now) }
{
    // By places: not every list has its records in one slice.
    for place in 0..list.count() {
        if is_match_at(list, place, joining, passage) {
            return Some(place);
        }
    }
    None
}
