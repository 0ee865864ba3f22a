ghost use Rattle.std.specs.Prelude.{◌≡◌, [], ◌∷◌};
ghost use Rattle.book.specs.Grid.{amounts};
ghost use Rattle.book.specs.Rest.{ChangesHoldings};
ghost use Rattle.refusals.specs.First.{unless_refused};
ghost use Rattle.awards.specs.Sheets.{view, blank_view};
ghost use Rattle.awards.specs.Awards.{award_refusal, award_after, award_sheet};
ghost use Rattle.gates.specs.declared.gate.Gate.TheVariants.{First};
ghost use Rattle.day.specs.Opening.{opening_refusal, opened_day};
ghost use Rattle.day_calls.specs.Answers.{said, numbered, unless, not_in_stage};
ghost use Rattle.day_calls.specs.Days.{if_unopened, in_first, same_stage};

use awards::awarded::LentAward;
use awards::sheet::Sheet;
use book::interface::Book;
use day::opening::NewDay;
use day::stages::Announcing;
use day_calls::calls::{Answer, NotCalled, NotDone};
use day_calls::desk::Stage;
use quantity::reserve::ReserveQuantity;
use record_list::interface::Records;

/// Opens a day that was not opened yet.
pub fn open_step<O: Book, B: Book<Q = O::Q>, L: Records>(
    stage: &mut Stage,
    obligations: &O,
    bids: &B,
    requests: &L,
    sheet: &mut Sheet,
    new: NewDay,
) -> Result<Answer<O::Q>, NotDone>
    ensures answer { said result ≡ if_unopened stage.old (unless (opening_refusal O.Q.measure new.number new.quarters (O.holdings obligations.now) (B.holdings bids.now) (L.contents requests.now)) (numbered (0 ∷ (1 ∷ [])))) not_in_stage }
    ensures stage { stage.new ≡ if_unopened stage.old (unless_refused (opening_refusal O.Q.measure new.number new.quarters (O.holdings obligations.now) (B.holdings bids.now) (L.contents requests.now)) (same_stage First (opened_day new.number new.quarters)) stage.old) stage.old }
    ensures sheet { view sheet.new ≡ if_unopened stage.old (unless_refused (opening_refusal O.Q.measure new.number new.quarters (O.holdings obligations.now) (B.holdings bids.now) (L.contents requests.now)) blank_view (view sheet.old)) (view sheet.old) }
{
    let Stage::Unopened = stage else {
        return Err(NotCalled::NotInThisStage.into());
    };
    let opened = Announcing::open(new, obligations, bids, requests, sheet)?;
    *stage = Stage::Announcing(opened);
    Ok(Answer::Opened)
}

/// Awards a quantity in the first stage.
pub fn award_step<O: Book>(
    stage: &Stage,
    obligations: &mut O,
    sheet: &mut Sheet,
    award: &LentAward<'_, O::Q>,
) -> Result<Answer<O::Q>, NotDone>
where
    O::Q: ReserveQuantity,
    ensures answer { said result ≡ in_first stage.now (λ day. unless (award_refusal O.Q.measure (O.holdings obligations.old) (O.places obligations.old) (O.admission obligations.old) O.Q.directions day.quarters (view sheet.old).awards award.now.provider award.now.block award.now.quantity award.now.prices.now) (numbered (0 ∷ (2 ∷ [])))) not_in_stage }
    ensures after { amounts O.Q.measure (O.holdings obligations.new) ≡ in_first stage.now (λ day. award_after O.Q.measure (O.holdings obligations.old) (O.places obligations.old) (O.admission obligations.old) O.Q.directions day.quarters (view sheet.old).awards award.now.provider award.now.block award.now.quantity award.now.prices.now) (amounts O.Q.measure (O.holdings obligations.old)) }
    ensures rest { ChangesHoldings O.places O.admission O.layer_number obligations.old obligations.new }
    ensures sheet { view sheet.new ≡ in_first stage.now (λ day. award_sheet O.Q.measure (O.holdings obligations.old) (O.places obligations.old) (O.admission obligations.old) O.Q.tenths_in O.Q.directions day.quarters award.now.provider award.now.block award.now.quantity award.now.prices.now (view sheet.old)) (view sheet.old) }
{
    let Stage::Announcing(announcing) = stage else {
        return Err(NotCalled::NotInThisStage.into());
    };
    announcing.award(obligations, sheet, award)?;
    Ok(Answer::Awarded)
}
