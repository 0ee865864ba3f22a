ghost use Rattle.std.specs.Prelude.{◌≡◌, [], ◌∷◌, Ok, Err};
ghost use Rattle.std.specs.List.{slice_get};
ghost use Rattle.book.specs.Calls.{held_at};
ghost use Rattle.awards.specs.Sheets.{view};
ghost use Rattle.requests.specs.Numbers.{status_number};
ghost use Rattle.day.specs.Questions.{question_refusal, lacking, status_refusal, status_of};
ghost use Rattle.day_calls.specs.declared.calls.NotCalled.TheVariants.{NotInThisStage};
ghost use Rattle.day_calls.specs.Answers.{said, numbered, quantified, unless, not_in_stage};
ghost use Rattle.day_calls.specs.Days.{once_opened};

use awards::sheet::Sheet;
use book::interface::Book;
use day::questions::{holding_of, missing_volume, request_status};
use day::stages::Day;
use day_calls::calls::{Answer, NotCalled, NotDone};
use day_calls::desk::Stage;
use quantity::interface::Quantity;
use quantity::reserve::ReserveQuantity;
use record_list::interface::Records;
use requests::request::Request;

// The day of a stage, once it is opened.
fn day_of(stage: &Stage) -> Result<Day, NotCalled>
    ensures { result ≡ once_opened stage.now (λ day. Ok day) (Err NotInThisStage) }
{
    match stage {
        Stage::Unopened => Err(NotCalled::NotInThisStage),
        Stage::Announcing(announcing) => Ok(announcing.day()),
        Stage::Reconciling(reconciling) => Ok(reconciling.day()),
        Stage::Intraday(intraday) => Ok(intraday.day()),
    }
}

/// What a provider owes in a quarter.
pub fn holding_step<O: Book>(
    stage: &Stage,
    obligations: &O,
    provider: u8,
    quarter: u8,
) -> Result<Answer<O::Q>, NotDone>
    ensures { said result ≡ once_opened stage.now (λ day. unless (question_refusal day provider quarter) (quantified (0 ∷ (5 ∷ [])) (held_at O.Q.measure (O.holdings obligations.now) provider quarter))) not_in_stage }
{
    let day = day_of(stage)?;
    let quantity = holding_of(day, obligations, provider, quarter)?;
    Ok(Answer::Held(quantity))
}

/// What a provider owes in a quarter and has not bid.
pub fn missing_step<O: Book, B: Book<Q = O::Q>>(
    stage: &Stage,
    obligations: &O,
    bids: &B,
    sheet: &Sheet,
    provider: u8,
    quarter: u8,
) -> Result<Answer<O::Q>, NotDone>
where
    O::Q: ReserveQuantity,
    ensures { said result ≡ once_opened stage.now (λ day. unless (question_refusal day provider quarter) (numbered (0 ∷ (6 ∷ (lacking ((view sheet.now).exempt provider quarter) (O.Q.tenths_in (held_at O.Q.measure (O.holdings obligations.now) provider quarter) 0) (O.Q.tenths_in (held_at O.Q.measure (B.holdings bids.now) provider quarter) 0) ∷ (lacking ((view sheet.now).exempt provider quarter) (O.Q.tenths_in (held_at O.Q.measure (O.holdings obligations.now) provider quarter) 1) (O.Q.tenths_in (held_at O.Q.measure (B.holdings bids.now) provider quarter) 1) ∷ [])))))) not_in_stage }
{
    let day = day_of(stage)?;
    let missing = missing_volume(day, obligations, bids, sheet, provider, quarter)?;
    Ok(Answer::Lacking(missing))
}

/// How the request at a place stands.
pub fn status_step<Q: Quantity, L: Records<Record = Request<Q::Row>>>(
    stage: &Stage,
    requests: &L,
    place: usize,
) -> Result<Answer<Q>, NotDone>
    ensures { said result ≡ once_opened stage.now (λ day. unless (status_refusal (slice_get (L.contents requests.now) place)) (numbered (0 ∷ (7 ∷ status_number (status_of (slice_get (L.contents requests.now) place)))))) not_in_stage }
{
    day_of(stage)?;
    let status = request_status(requests, place)?;
    Ok(Answer::Standing(status))
}
