use awards::awarded::Award;
use bureau::bureau::Bureau;
use bureau::calls::{Call, LentCall};
use day::opening::NewDay;
use day_calls::calls::{Answer, DayCall, NotDone};
use full_book::stored::StoredFullBook;
use quantity::afrr::{Band, BandRow};
use quantity::interface::Quantity;
use quantity::up_down::UpDown;
use refusals::refusal::Refusal;
use supplies::books::FullBooks;
use supplies::own_memory::{OwnDesk, OwnMemory};

fn award(prices: &'static [u32]) -> LentCall<'static, Band> {
    Call::On {
        day: 0,
        call: DayCall::Award(Award {
            provider: 2,
            block: 6,
            quantity: Band::of_row(BandRow { up: 40, down: 20 }),
            prices,
        }),
    }
}

// A price for each of the two directions, no more and no fewer.
#[test]
fn a_day_of_bands(rt: HostRuntime) {
    let supply = OwnMemory {
        books: FullBooks,
        requests: 0,
    };
    let mut bureau: Bureau<OwnDesk<StoredFullBook<Band>>> = Bureau::new(rt.alloc());
    let opening = Call::Open(NewDay {
        number: 31,
        quarters: 100,
    });
    assert_eq!(rt;
        bureau.perform(&supply, &opening).answer,
        Ok(Answer::Opened)
    );
    let wrong_count = Err(NotDone::Refused(Refusal::WrongPriceCount));
    assert_eq!(rt;
        bureau.perform(&supply, &award(&[1250])).answer,
        wrong_count
    );
    assert_eq!(rt;
        bureau.perform(&supply, &award(&[1250, 900, 1])).answer,
        wrong_count
    );
    assert_eq!(rt;
        bureau.perform(&supply, &award(&[1250, 900])).answer,
        Ok(Answer::Awarded)
    );
    let missing = Call::On {
        day: 0,
        call: DayCall::Missing {
            provider: 2,
            quarter: 99,
        },
    };
    assert_eq!(rt;
        bureau.perform(&supply, &missing).answer,
        Ok(Answer::Lacking(UpDown { up: 40, down: 20 }))
    );
}
