use awards::awarded::Award;
use book::answers::Cause;
use bureau::bureau::Bureau;
use bureau::calls::{Call, LentCall, Reply};
use bureau::supply::Supply;
use day::opening::NewDay;
use day_calls::calls::{Answer, DayCall, LentDayCall, NotCalled, NotDone};
use desk::day_desk::DayDesk;
use full_book::stored::StoredFullBook;
use limit_layer::layer::LimitLayer;
use limit_layer::table::LimitTable;
use quantity::direction::Direction;
use quantity::fcr::Volume;
use quantity::interface::Quantity;
use refusals::refusal::Refusal;
use sparse_book::stored::StoredSparseBook;
use std::process::Abort;
use supplies::books::{FullBooks, SparseBooks, UnderLimits};
use supplies::own_memory::{OwnDesk, OwnMemory};

fn open(number: u8, quarters: u8) -> LentCall<'static, Volume> {
    Call::Open(NewDay { number, quarters })
}

fn on(day: usize, call: LentDayCall<'static, Volume>) -> LentCall<'static, Volume> {
    Call::On { day, call }
}

fn award(provider: u8, tenths: u16) -> LentDayCall<'static, Volume> {
    DayCall::Award(Award {
        provider,
        block: 1,
        quantity: Volume::of_row(tenths),
        prices: &[1250],
    })
}

fn holding(provider: u8, quarter: u8) -> LentDayCall<'static, Volume> {
    DayCall::Holding { provider, quarter }
}

fn reply(day: usize, answer: Result<Answer<Volume>, NotDone>) -> Reply<Volume> {
    Reply { day, answer }
}

// Two days of one number side by side: what is awarded on one is not held on the other.
fn two_days<D: DayDesk<Q = Volume> + Drop, S: Supply<D>>(
    rt: &(impl Abort + AllocGlobal),
    supply: &S,
    second: Result<Answer<Volume>, NotDone>,
) {
    let calls = [
        open(7, 91),
        open(7, 92),
        open(7, 96),
        on(0, award(3, 100)),
        on(1, award(4, 200)),
        on(0, holding(3, 12)),
        on(1, holding(3, 12)),
        on(2, holding(3, 12)),
        on(0, holding(3, 92)),
    ];
    let none = reply(9, Err(NotDone::NotCalled(NotCalled::NoMemory)));
    let mut replies = [none; 9];
    let (_bureau, made) = Bureau::<D>::run_new(supply, rt.alloc(), &calls, &mut replies);
    assert_eq!(rt; made, 9);
    assert_eq!(rt;
        replies[0],
        reply(0, Err(NotDone::Refused(Refusal::NoSuchDayLength)))
    );
    assert_eq!(rt; replies[1], reply(0, Ok(Answer::Opened)));
    assert_eq!(rt; replies[2], reply(1, Ok(Answer::Opened)));
    assert_eq!(rt; replies[3], reply(0, Ok(Answer::Awarded)));
    assert_eq!(rt; replies[4], reply(1, second));
    assert_eq!(rt; replies[5], reply(0, Ok(Answer::Held(Volume::of_row(100)))));
    assert_eq!(rt; replies[6], reply(1, Ok(Answer::Held(Volume::of_row(0)))));
    assert_eq!(rt;
        replies[7],
        reply(2, Err(NotDone::NotCalled(NotCalled::NoSuchDay)))
    );
    assert_eq!(rt;
        replies[8],
        reply(0, Err(NotDone::Refused(Refusal::NoSuchSpan)))
    );
}

#[test]
fn two_days_over_full_books(rt: HostRuntime) {
    let supply = OwnMemory {
        books: FullBooks,
        requests: 4,
    };
    two_days::<OwnDesk<StoredFullBook<Volume>>, OwnMemory<FullBooks>>(
        &rt,
        &supply,
        Ok(Answer::Awarded),
    );
}

// As many places as a block has quarters.
#[test]
fn two_days_over_sparse_books(rt: HostRuntime) {
    let supply = OwnMemory {
        books: SparseBooks { places: 16 },
        requests: 4,
    };
    two_days::<OwnDesk<StoredSparseBook<Volume>>, OwnMemory<SparseBooks>>(
        &rt,
        &supply,
        Ok(Answer::Awarded),
    );
}

#[test]
fn two_days_under_limits(rt: HostRuntime) {
    let mut limits = LimitTable::new();
    assert!(rt; limits.set(3, Direction::Up, 100).is_ok());
    assert!(rt; limits.set(4, Direction::Up, 199).is_ok());
    let supply = OwnMemory {
        books: UnderLimits {
            below: FullBooks,
            limits,
        },
        requests: 4,
    };
    let cause = Cause::Limit {
        layer: 1,
        direction: Direction::Up,
    };
    let above = Refusal::NotAdmitted {
        provider: 4,
        quarter: 16,
        cause,
    };
    two_days::<OwnDesk<LimitLayer<StoredFullBook<Volume>>>, OwnMemory<UnderLimits<FullBooks>>>(
        &rt,
        &supply,
        Err(NotDone::Refused(above)),
    );
}
