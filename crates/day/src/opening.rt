ghost use Rattle.std.specs.Prelude.{◌≡◌, IfOk};
ghost use Rattle.std.specs.Result.{result_err};
ghost use Rattle.refusals.specs.First.{unless_refused};
ghost use Rattle.awards.specs.Sheets.{view, blank_view};
ghost use Rattle.day.specs.Opening.{nothing_held, opening_refusal, opened_day};

use crate::stages::{Announcing, Day};
use awards::sheet::Sheet;
use book::counting::count_holdings;
use book::interface::Book;
use record_list::interface::Records;
use refusals::refusal::Refusal;

/// What a day is opened as: its number, and how many quarters it has.
#[derive(Clone, Copy, PartialEq, Eq, Debug)]
pub struct NewDay {
    pub number: u8,
    pub quarters: u8,
}

// Whether no book holds anything and no place of the list is used.
fn nothing_held<O: Book, B: Book<Q = O::Q>, L: Records>(
    obligations: &O,
    bids: &B,
    requests: &L,
) -> bool
    ensures { result ≡ nothing_held O.Q.measure (O.holdings obligations.now) (B.holdings bids.now) (L.contents requests.now) }
{
    count_holdings(obligations) == 0 && count_holdings(bids) == 0 && requests.count() == 0
}

impl Announcing {
    /// Opens a day over two books and a list that are empty, and blanks the sheet; or leaves the sheet and says why not.
    pub fn open<O: Book, B: Book<Q = O::Q>, L: Records>(
        new: NewDay,
        obligations: &O,
        bids: &B,
        requests: &L,
        sheet: &mut Sheet,
    ) -> Result<Announcing, Refusal>
        ensures answer { result_err result ≡ opening_refusal O.Q.measure new.number new.quarters (O.holdings obligations.now) (B.holdings bids.now) (L.contents requests.now) }
        ensures day { IfOk result (λ s. s.day ≡ opened_day new.number new.quarters) }
        ensures sheet { view sheet.new ≡ unless_refused (result_err result) blank_view (view sheet.old) }
    {
        let NewDay { number, quarters } = new;
        if !matches!(quarters, 92 | 96 | 100) {
            return Err(Refusal::NoSuchDayLength);
        }
        if !(1..=31).contains(&number) {
            return Err(Refusal::NoSuchDayNumber);
        }
        if !nothing_held(obligations, bids, requests) {
            return Err(Refusal::NotEmpty);
        }
        *sheet = Sheet::blank();
        Ok(Announcing::of(Day {
            number,
            quarters,
            // The smallest minute and no `Option`: so the rules have it.
            minute: i32::MIN,
        }))
    }
}
