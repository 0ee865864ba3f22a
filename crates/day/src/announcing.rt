ghost use Rattle.std.specs.Prelude.{◌≡◌, IfOk};
ghost use Rattle.std.specs.Result.{result_err};
ghost use Rattle.record_list.specs.Lists.{ListBecomes};
ghost use Rattle.requests.specs.Announcing.{announcement_place};
ghost use Rattle.day.specs.Announcing.{outline_refusal, announce_refusal, announced_list, announced_day};

use crate::minutes::gate_opens;
use crate::stages::{BeforeGate, InStage};
use quantity::interface::Quantity;
use record_list::interface::Records;
use refusals::refusal::Refusal;
use refusals::span::Provider;
use requests::announcement::Announcement;
use requests::announcing::put_announcement;
use requests::request::Request;

impl<S: BeforeGate> InStage<S> {
    // What is wrong with an announcement before the list is looked at.
    fn check_outline<Q: Quantity>(&self, said: Announcement<Q>) -> Result<(), Refusal>
        ensures { result_err result ≡ outline_refusal Q.measure self.now.day S.JOINING said }
    {
        let passage = said.passage;
        Provider::try_from(passage.giver)?;
        Provider::try_from(passage.taker)?;
        // No `Span`, whose last quarter is below 100: a stage states no bound of its day's quarters.
        if passage.first > passage.last || passage.last >= self.day.quarters {
            return Err(Refusal::NoSuchSpan);
        }
        if passage.giver == passage.taker {
            return Err(Refusal::SameProvider);
        }
        if said.quantity.is_zero() {
            return Err(Refusal::ZeroQuantity);
        }
        if said.minute < self.day.minute {
            return Err(Refusal::MinuteBeforeLast);
        }
        if said.minute >= gate_opens(S::GATE) {
            return Err(Refusal::TooLate);
        }
        Ok(())
    }

    /// Takes an announcement. In the first stage it joins the unresolved request of its giver, taker and span, or becomes a new one;
    /// in the second it joins one whose two sides do not agree yet.
    #[tactic(auto, using(refusals::proofs::Firsts::front_stops, refusals::proofs::Firsts::front_passes, refusals::proofs::Firsts::alone), unfolding(crate::specs::Announcing::announce_refusal, crate::specs::Announcing::announced_list))]
    pub fn announce<Q: Quantity, L: Records<Record = Request<Q::Row>>>(
        &mut self,
        requests: &mut L,
        said: Announcement<Q>,
    ) -> Result<usize, Refusal>
        ensures answer { result_err result ≡ announce_refusal Q.measure self.old.day S.JOINING said (L.contents requests.old) (L.places requests.old) }
        ensures place { IfOk result (λ p. p ≡ announcement_place S.JOINING (L.contents requests.old) said.passage) }
        ensures list { ListBecomes L.contents L.places requests.old requests.new (announced_list Q.measure self.old.day S.JOINING said (L.contents requests.old) (L.places requests.old)) }
        ensures day { self.new.day ≡ announced_day self.old.day said (result_err result) }
    {
        self.check_outline(said)?;
        let place = put_announcement(requests, S::JOINING, said)?;
        self.day.minute = said.minute;
        Ok(place)
    }
}
