ghost use Rattle.std.specs.Prelude.{◌≡◌, MatchResult, OnOk};
ghost use Rattle.std.specs.Result.{result_err};
ghost use Rattle.book.specs.Grid.{amounts};
ghost use Rattle.book.specs.Rest.{ChangesHoldings};
ghost use Rattle.refusals.specs.First.{unless_refused};
ghost use Rattle.record_list.specs.Lists.{ListBecomes};
ghost use Rattle.gates.specs.Gates.{after_moves, gated, Judged};
ghost use Rattle.day.specs.Announcing.{at_minute};
ghost use Rattle.day.specs.Gating.{gate_refusal, refusal_in};

use crate::minutes::gate_opens;
use crate::stages::{BeforeGate, Day, InStage};
use book::interface::Book;
use gates::gate::Gate;
use gates::passing::pass_gate;
use quantity::interface::Quantity;
use record_list::interface::Records;
use refusals::refusal::Refusal;
use requests::request::Request;

// Whether a gate opens at a minute.
fn check_gate(day: Day, gate: Gate, minute: i32) -> Result<(), Refusal>
    ensures { result_err result ≡ gate_refusal gate day minute }
{
    if minute < day.minute {
        return Err(Refusal::MinuteBeforeLast);
    }
    if minute < gate_opens(gate) {
        return Err(Refusal::TooEarly);
    }
    Ok(())
}

impl<S: BeforeGate> InStage<S> {
    /// Takes the balanced requests in list order, rejects every other unresolved one where the gate is the second, and goes on to the next stage.
    /// The stage is handed back with the refusal where the gate does not open.
    pub fn pass_gate<O: Book, L: Records<Record = Request<<O::Q as Quantity>::Row>>>(
        self,
        obligations: &mut O,
        requests: &mut L,
        minute: i32,
    ) -> Result<InStage<S::Next>, (InStage<S>, Refusal)>
        ensures answer { refusal_in result ≡ gate_refusal S.GATE self.day minute }
        ensures day { MatchResult result (λ next. next.day ≡ at_minute self.day minute) (λ back. back.0.day ≡ self.day) }
        ensures requests { ListBecomes L.contents L.places requests.old requests.new (unless_refused (gate_refusal S.GATE self.day minute) (gated O.Q.measure (O.places obligations.old) (O.admission obligations.old) S.GATE (O.holdings obligations.old) (L.contents requests.old)) (L.contents requests.old)) }
        ensures after { amounts O.Q.measure (O.holdings obligations.new) ≡ unless_refused (gate_refusal S.GATE self.day minute) (amounts O.Q.measure (after_moves O.Q.measure (O.places obligations.old) (O.admission obligations.old) (O.holdings obligations.old) (L.contents requests.old))) (amounts O.Q.measure (O.holdings obligations.old)) }
        ensures judged { OnOk result (Judged O.Q.measure (O.places obligations.old) (O.admission obligations.old) S.GATE (O.holdings obligations.old) (L.contents requests.old) (L.contents requests.new)) }
        ensures rest { ChangesHoldings O.places O.admission O.layer_number obligations.old obligations.new }
    {
        // No `?`: the stage goes back with the refusal.
        if let Err(refusal) = check_gate(self.day, S::GATE, minute) {
            return Err((self, refusal));
        }
        pass_gate(obligations, requests, S::GATE);
        Ok(InStage::of(Day { minute, ..self.day }))
    }
}
