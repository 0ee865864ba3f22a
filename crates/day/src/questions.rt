ghost use Rattle.std.specs.Prelude.{◌≡◌, IfOk};
ghost use Rattle.std.specs.Result.{result_err};
ghost use Rattle.std.specs.List.{slice_get};
ghost use Rattle.quantity.specs.Directions.{number as direction-number};
ghost use Rattle.book.specs.Calls.{held_at};
ghost use Rattle.awards.specs.Sheets.{view};
ghost use Rattle.day.specs.Questions.{question_refusal, lacking, status_refusal, status_of};

use crate::stages::Day;
use awards::sheet::Sheet;
use book::interface::Book;
use quantity::direction::Direction;
use quantity::reserve::ReserveQuantity;
use quantity::up_down::UpDown;
use record_list::interface::Records;
use refusals::refusal::Refusal;
use refusals::span::Provider;
use requests::request::{Request, Status};

/// What is missing in each direction, in tenths of a MW.
pub type Missing = UpDown<u16>;

// Refuses what is no provider or no quarter of the day. Both questions below promise this refusal beside their values.
fn check_question(day: Day, provider: u8, quarter: u8) -> Result<(), Refusal>
    ensures { result_err result ≡ question_refusal day provider quarter }
{
    Provider::try_from(provider)?;
    if quarter >= day.quarters {
        return Err(Refusal::NoSuchSpan);
    }
    Ok(())
}

/// What a provider owes in a quarter of the day.
pub fn holding_of<O: Book>(
    day: Day,
    obligations: &O,
    provider: u8,
    quarter: u8,
) -> Result<O::Q, Refusal>
    ensures answer { result_err result ≡ question_refusal day provider quarter }
    ensures value { IfOk result (λ q. q ≡ held_at O.Q.measure (O.holdings obligations.now) provider quarter) }
{
    check_question(day, provider, quarter)?;
    Ok(obligations.holding(provider, quarter))
}

// What is held in a direction above what is bid, nothing in an exempt quarter.
fn missing_in<Q: ReserveQuantity>(held: Q, bid: Q, exempt: bool, direction: Direction) -> u16
    ensures { result ≡ lacking exempt (Q.tenths_in held (direction-number direction)) (Q.tenths_in bid (direction-number direction)) }
{
    if exempt {
        return 0;
    }
    held.tenths(direction).saturating_sub(bid.tenths(direction))
}

/// What a provider owes in a quarter of the day and has not bid, in each direction alone.
pub fn missing_volume<O: Book, B: Book<Q = O::Q>>(
    day: Day,
    obligations: &O,
    bids: &B,
    sheet: &Sheet,
    provider: u8,
    quarter: u8,
) -> Result<Missing, Refusal>
where
    O::Q: ReserveQuantity,
    ensures answer { result_err result ≡ question_refusal day provider quarter }
    ensures up { IfOk result (λ x. x.up ≡ lacking ((view sheet.now).exempt provider quarter) (O.Q.tenths_in (held_at O.Q.measure (O.holdings obligations.now) provider quarter) 0) (O.Q.tenths_in (held_at O.Q.measure (B.holdings bids.now) provider quarter) 0)) }
    ensures down { IfOk result (λ x. x.down ≡ lacking ((view sheet.now).exempt provider quarter) (O.Q.tenths_in (held_at O.Q.measure (O.holdings obligations.now) provider quarter) 1) (O.Q.tenths_in (held_at O.Q.measure (B.holdings bids.now) provider quarter) 1)) }
{
    check_question(day, provider, quarter)?;
    let held = obligations.holding(provider, quarter);
    let bid = bids.holding(provider, quarter);
    let exempt = sheet.is_exempt(provider, quarter);
    Ok(Missing {
        up: missing_in(held, bid, exempt, Direction::Up),
        down: missing_in(held, bid, exempt, Direction::Down),
    })
}

/// Where the request at a place stands.
pub fn request_status<R: Copy, L: Records<Record = Request<R>>>(
    requests: &L,
    place: usize,
) -> Result<Status, Refusal>
    ensures answer { result_err result ≡ status_refusal (slice_get (L.contents requests.now) place) }
    ensures value { IfOk result (λ s. s ≡ status_of (slice_get (L.contents requests.now) place)) }
{
    let request = requests.at(place).ok_or(Refusal::NoSuchSpan)?;
    Ok(request.status)
}
