ghost use Rattle.std.specs.Prelude.{◌≡◌, [], ◌∷◌};
ghost use Rattle.record_list.specs.Lists.{ListBecomes};
ghost use Rattle.requests.specs.Announcing.{announcement_place};
ghost use Rattle.day.specs.Announcing.{announce_refusal, announced_list, announced_day};
ghost use Rattle.day_calls.specs.Answers.{said as saying, numbered, unless, not_in_stage};
ghost use Rattle.day_calls.specs.Days.{before_gate, joining_before, same_stage};

use day_calls::calls::{Answer, NotCalled, NotDone};
use day_calls::desk::Stage;
use quantity::interface::Quantity;
use record_list::interface::Records;
use requests::announcement::Announcement;
use requests::request::Request;

/// Takes an announcement in the first or the second stage.
pub fn announce_step<Q: Quantity, L: Records<Record = Request<Q::Row>>>(
    stage: &mut Stage,
    requests: &mut L,
    said: Announcement<Q>,
) -> Result<Answer<Q>, NotDone>
    ensures answer { saying result ≡ before_gate stage.old (λ gate day. unless (announce_refusal Q.measure day (joining_before gate) said (L.contents requests.old) (L.places requests.old)) (numbered (0 ∷ (3 ∷ (announcement_place (joining_before gate) (L.contents requests.old) said.passage ∷ []))))) not_in_stage }
    ensures stage { stage.new ≡ before_gate stage.old (λ gate day. same_stage gate (announced_day day said (announce_refusal Q.measure day (joining_before gate) said (L.contents requests.old) (L.places requests.old)))) stage.old }
    ensures requests { ListBecomes L.contents L.places requests.old requests.new (before_gate stage.old (λ gate day. announced_list Q.measure day (joining_before gate) said (L.contents requests.old) (L.places requests.old)) (L.contents requests.old)) }
{
    let place = match stage {
        Stage::Announcing(first) => first.announce(requests, said)?,
        Stage::Reconciling(second) => second.announce(requests, said)?,
        _ => return Err(NotCalled::NotInThisStage.into()),
    };
    Ok(Answer::Placed(place))
}
