ghost use Rattle.std.specs.Prelude.{◌≡◌, [], ◌∷◌};
ghost use Rattle.book.specs.Grid.{amounts};
ghost use Rattle.book.specs.Rest.{ChangesHoldings};
ghost use Rattle.refusals.specs.First.{unless_refused};
ghost use Rattle.record_list.specs.Lists.{ListBecomes};
ghost use Rattle.gates.specs.Gates.{after_moves, gated};
ghost use Rattle.day.specs.Announcing.{at_minute};
ghost use Rattle.day.specs.Gating.{gate_refusal};
ghost use Rattle.day_calls.specs.Answers.{said, numbered, unless, not_in_stage};
ghost use Rattle.day_calls.specs.Days.{before_gate, next_stage};

use book::interface::Book;
use day_calls::calls::{Answer, NotCalled, NotDone};
use day_calls::desk::Stage;
use quantity::interface::Quantity;
use record_list::interface::Records;
use requests::request::Request;

/// Passes the first gate in the first stage, the second in the second.
pub fn gate_step<O: Book, L: Records<Record = Request<<O::Q as Quantity>::Row>>>(
    stage: &mut Stage,
    obligations: &mut O,
    requests: &mut L,
    minute: i32,
) -> Result<Answer<O::Q>, NotDone>
    ensures answer { said result ≡ before_gate stage.old (λ gate day. unless (gate_refusal gate day minute) (numbered (0 ∷ (4 ∷ [])))) not_in_stage }
    ensures stage { stage.new ≡ before_gate stage.old (λ gate day. unless_refused (gate_refusal gate day minute) (next_stage gate (at_minute day minute)) stage.old) stage.old }
    ensures requests { ListBecomes L.contents L.places requests.old requests.new (before_gate stage.old (λ gate day. unless_refused (gate_refusal gate day minute) (gated O.Q.measure (O.places obligations.old) (O.admission obligations.old) gate (O.holdings obligations.old) (L.contents requests.old)) (L.contents requests.old)) (L.contents requests.old)) }
    ensures after { amounts O.Q.measure (O.holdings obligations.new) ≡ before_gate stage.old (λ gate day. unless_refused (gate_refusal gate day minute) (amounts O.Q.measure (after_moves O.Q.measure (O.places obligations.old) (O.admission obligations.old) (O.holdings obligations.old) (L.contents requests.old))) (amounts O.Q.measure (O.holdings obligations.old))) (amounts O.Q.measure (O.holdings obligations.old)) }
    ensures rest { ChangesHoldings O.places O.admission O.layer_number obligations.old obligations.new }
{
    // Two arms of one shape: each stage goes on to, or back into, a variant of its own. A trait that names the two variants of a stage,
    // with an impl for each, is longer than the second arm.
    let (next, made) = match std::mem::replace(stage, Stage::Unopened) {
        Stage::Announcing(first) => match first.pass_gate(obligations, requests, minute) {
            Ok(next) => (Stage::Reconciling(next), Ok(Answer::GatePassed)),
            Err((back, refusal)) => (Stage::Announcing(back), Err(refusal.into())),
        },
        Stage::Reconciling(second) => match second.pass_gate(obligations, requests, minute) {
            Ok(next) => (Stage::Intraday(next), Ok(Answer::GatePassed)),
            Err((back, refusal)) => (Stage::Reconciling(back), Err(refusal.into())),
        },
        other => (other, Err(NotCalled::NotInThisStage.into())),
    };
    *stage = next;
    made
}
