use awards::awarded::Award;
use awards::sheet::Sheet;
use book::answers::Cause;
use book::interface::Book;
use day::opening::NewDay;
use day_calls::calls::{Answer, DayCall, LentDayCall, NotCalled, NotDone};
use day_calls::desk::{Desk, Stage};
use desk::day_desk::DayDesk;
use full_book::lent::FullBook;
use limit_layer::layer::LimitLayer;
use limit_layer::table::LimitTable;
use quantity::direction::Direction;
use quantity::fcr::Volume;
use quantity::interface::Quantity;
use quantity::up_down::UpDown;
use record_list::interface::Records;
use record_list::list::RecordList;
use refusals::passage::Passage;
use refusals::refusal::Refusal;
use requests::announcement::Announcement;
use requests::request::{Request, Side, Status};
use sparse_book::lent::SparseBook;
use sparse_book::record::Record;
use std::process::Abort;

fn tenths(n: u16) -> Volume {
    Volume::of_row(n)
}

fn opening() -> LentDayCall<'static, Volume> {
    DayCall::Open(NewDay {
        number: 1,
        quarters: 96,
    })
}

fn award(provider: u8, block: u8, quantity: Volume) -> LentDayCall<'static, Volume> {
    DayCall::Award(Award {
        provider,
        block,
        quantity,
        prices: &[1250],
    })
}

// A span of quarters passes from provider 0 to provider 1.
fn passage(first: u8, last: u8) -> Passage {
    Passage {
        giver: 0,
        taker: 1,
        first,
        last,
    }
}

fn announce(
    side: Side,
    passage: Passage,
    quantity: Volume,
    minute: i32,
) -> LentDayCall<'static, Volume> {
    DayCall::Announce(Announcement {
        side,
        passage,
        quantity,
        minute,
    })
}

fn gate(minute: i32) -> LentDayCall<'static, Volume> {
    DayCall::Gate { minute }
}

// Makes a call, which answers this.
fn answers<D: DayDesk<Q = Volume>>(
    rt: &impl Abort,
    desk: &mut D,
    call: &LentDayCall<'_, Volume>,
    answer: Answer<Volume>,
) {
    assert_eq!(rt; desk.perform(call), Ok(answer));
}

// Makes a call, which is refused like this.
fn refuses<D: DayDesk<Q = Volume>>(
    rt: &impl Abort,
    desk: &mut D,
    call: &LentDayCall<'_, Volume>,
    refusal: Refusal,
) {
    assert_eq!(rt; desk.perform(call), Err(NotDone::Refused(refusal)));
}

// Both sides announce the same quantity, which comes to a place.
fn agree<D: DayDesk<Q = Volume>>(
    rt: &impl Abort,
    desk: &mut D,
    passage: Passage,
    quantity: Volume,
    place: usize,
) {
    for side in [Side::Giver, Side::Taker] {
        let call = announce(side, passage, quantity, -700);
        answers(rt, desk, &call, Answer::Placed(place));
    }
}

// What a provider holds in a quarter.
fn holds<D: DayDesk<Q = Volume>>(rt: &impl Abort, desk: &mut D, provider: u8, held: [u16; 3]) {
    let mut quarter: u8 = 0;
    for up in held {
        let call = DayCall::Holding { provider, quarter };
        answers(rt, desk, &call, Answer::Held(tenths(up)));
        quarter = quarter.saturating_add(1);
    }
}

// How the request at a place stands.
fn stands<D: DayDesk<Q = Volume>>(rt: &impl Abort, desk: &mut D, place: usize, status: Status) {
    answers(
        rt,
        desk,
        &DayCall::Status { place },
        Answer::Standing(status),
    );
}

// Two requests that cannot both move: the first in the list does.
fn list_order<D: DayDesk<Q = Volume>>(
    rt: &impl Abort,
    desk: &mut D,
    first: (Passage, u16),
    second: (Passage, u16),
    held: [u16; 3],
) {
    answers(rt, desk, &opening(), Answer::Opened);
    answers(rt, desk, &award(0, 0, tenths(100)), Answer::Awarded);
    agree(rt, desk, first.0, tenths(first.1), 0);
    agree(rt, desk, second.0, tenths(second.1), 1);
    refuses(rt, desk, &gate(-631), Refusal::TooEarly);
    holds(rt, desk, 0, [100, 100, 100]);
    answers(rt, desk, &gate(-630), Answer::GatePassed);
    holds(rt, desk, 0, held);
    stands(rt, desk, 0, Status::Confirmed);
    let cause = Refusal::NoRemainder {
        provider: 0,
        quarter: 1,
    };
    stands(rt, desk, 1, Status::Rejected(Some(cause)));
}

fn earlier_first<D: DayDesk<Q = Volume>>(rt: &impl Abort, desk: &mut D) {
    list_order(
        rt,
        desk,
        (passage(0, 1), 60),
        (passage(1, 2), 50),
        [40, 40, 100],
    );
}

fn later_first<D: DayDesk<Q = Volume>>(rt: &impl Abort, desk: &mut D) {
    list_order(
        rt,
        desk,
        (passage(1, 2), 50),
        (passage(0, 1), 60),
        [100, 50, 50],
    );
}

// Announcements up to the minute of each gate, and what the second gate makes of those that do not balance.
fn last_minutes<D: DayDesk<Q = Volume>>(rt: &impl Abort, desk: &mut D) {
    let early = announce(Side::Giver, passage(0, 0), tenths(10), -631);
    assert_eq!(rt;
        desk.perform(&early),
        Err(NotDone::NotCalled(NotCalled::NotInThisStage))
    );
    answers(rt, desk, &opening(), Answer::Opened);
    answers(rt, desk, &award(0, 6, tenths(100)), Answer::Awarded);
    answers(rt, desk, &early, Answer::Placed(0));
    let alone = announce(Side::Giver, passage(2, 2), tenths(10), -631);
    answers(rt, desk, &alone, Answer::Placed(1));
    let late = announce(Side::Taker, passage(0, 0), tenths(10), -630);
    refuses(rt, desk, &late, Refusal::TooLate);
    answers(rt, desk, &gate(-630), Answer::GatePassed);
    stands(rt, desk, 0, Status::WaitingForCounterpart);
    let mended = announce(Side::Taker, passage(0, 0), tenths(10), -601);
    answers(rt, desk, &mended, Answer::Placed(0));
    refuses(rt, desk, &mended, Refusal::NoRequestToChange);
    let past = announce(Side::Taker, passage(2, 2), tenths(10), -600);
    refuses(rt, desk, &past, Refusal::TooLate);
    answers(rt, desk, &gate(-600), Answer::GatePassed);
    stands(rt, desk, 0, Status::Confirmed);
    stands(rt, desk, 1, Status::Rejected(None));
    holds(rt, desk, 0, [90, 100, 100]);
    holds(rt, desk, 1, [10, 0, 0]);
}

// What a limit keeps from being awarded and from moving.
fn limits_hold<D: DayDesk<Q = Volume>>(rt: &impl Abort, desk: &mut D) {
    answers(rt, desk, &opening(), Answer::Opened);
    let cause = Cause::Limit {
        layer: 1,
        direction: Direction::Up,
    };
    let above = |provider| Refusal::NotAdmitted {
        provider,
        quarter: 0,
        cause,
    };
    refuses(rt, desk, &award(0, 0, tenths(101)), above(0));
    answers(rt, desk, &award(0, 0, tenths(100)), Answer::Awarded);
    agree(rt, desk, passage(0, 0), tenths(61), 0);
    answers(rt, desk, &gate(-630), Answer::GatePassed);
    stands(rt, desk, 0, Status::Rejected(Some(above(1))));
    let missing = DayCall::Missing {
        provider: 0,
        quarter: 15,
    };
    answers(
        rt,
        desk,
        &missing,
        Answer::Lacking(UpDown { up: 100, down: 0 }),
    );
}

// Provider 0 may hold 100, provider 1 60.
fn limits(rt: &impl Abort) -> LimitTable {
    let mut limits = LimitTable::new();
    assert!(rt; limits.set(0, Direction::Up, 100).is_ok());
    assert!(rt; limits.set(1, Direction::Up, 60).is_ok());
    limits
}

// A desk that is not opened yet, over these books under the limits.
fn desk_over<O: Book<Q = Volume>, B: Book<Q = Volume>, L: Records<Record = Request<u16>>>(
    rt: &impl Abort,
    obligations: O,
    bids: B,
    requests: L,
) -> Desk<LimitLayer<O>, LimitLayer<B>, L> {
    Desk {
        stage: Stage::Unopened,
        obligations: LimitLayer::new(obligations, limits(rt)),
        bids: LimitLayer::new(bids, limits(rt)),
        requests,
        sheet: Sheet::blank(),
    }
}

fn no_request() -> Request<u16> {
    Request {
        passage: passage(0, 0),
        giving: None,
        taking: None,
        status: Status::WaitingForCounterpart,
    }
}

// The runs of a day below.
#[derive(Clone, Copy)]
enum Run {
    EarlierFirst,
    LaterFirst,
    LastMinutes,
    Limits,
}

impl Run {
    fn on<D: DayDesk<Q = Volume>>(self, rt: &impl Abort, desk: &mut D) {
        match self {
            Run::EarlierFirst => earlier_first(rt, desk),
            Run::LaterFirst => later_first(rt, desk),
            Run::LastMinutes => last_minutes(rt, desk),
            Run::Limits => limits_hold(rt, desk),
        }
    }
}

// One run over these books under the limits, and a list in lent memory.
fn over_books<O: Book<Q = Volume> + Drop, B: Book<Q = Volume> + Drop>(
    rt: &impl Abort,
    run: Run,
    obligations: O,
    bids: B,
) {
    let mut requests = [no_request(); 4];
    let list = RecordList::empty(&mut requests);
    run.on(rt, &mut desk_over(rt, obligations, bids, list));
}

// One run over full obligations and sparse bids, and the other way round, in lent memory.
fn over_lent_books(rt: &impl Abort, run: Run) {
    let mut rows = [0u16; 3200];
    let mut slots: [Option<Record<u16>>; 128] = [None; 128];
    over_books(
        rt,
        run,
        FullBook::<Volume>::blank(&mut rows),
        SparseBook::<Volume>::blank(&mut slots),
    );
    over_books(
        rt,
        run,
        SparseBook::<Volume>::blank(&mut slots),
        FullBook::<Volume>::blank(&mut rows),
    );
}

#[test]
fn of_two_requests_the_earlier_moves(rt: HostRuntime) {
    over_lent_books(&rt, Run::EarlierFirst);
}

#[test]
fn of_the_two_exchanged_the_other_moves(rt: HostRuntime) {
    over_lent_books(&rt, Run::LaterFirst);
}

#[test]
fn announced_up_to_each_gate(rt: HostRuntime) {
    over_lent_books(&rt, Run::LastMinutes);
}

#[test]
fn limits_bind_awards_and_moves(rt: HostRuntime) {
    over_lent_books(&rt, Run::Limits);
}

// A day is not opened over a book that holds something, in any quarter, or a list with a used place, and stays unopened.
fn stays_unopened<O: Book<Q = Volume> + Drop, B: Book<Q = Volume> + Drop>(
    rt: &impl Abort,
    obligations: O,
    bids: B,
    used: usize,
) {
    let mut requests = [no_request(); 4];
    let list = RecordList::resume(&mut requests, used);
    let mut desk = desk_over(rt, obligations, bids, list);
    refuses(rt, &mut desk, &opening(), Refusal::NotEmpty);
    assert_eq!(rt;
        desk.perform(&DayCall::Status { place: 0 }),
        Err(NotDone::NotCalled(NotCalled::NotInThisStage))
    );
}

#[test]
fn opened_over_nothing_that_holds(rt: HostRuntime) {
    let mut empty = [0u16; 3200];
    let mut held = [0u16; 3200];
    held[3199] = 1;
    let mut slots: [Option<Record<u16>>; 1] = [None; 1];
    stays_unopened(
        &rt,
        FullBook::<Volume>::over(&mut held),
        SparseBook::<Volume>::blank(&mut slots),
        0,
    );
    stays_unopened(
        &rt,
        FullBook::<Volume>::blank(&mut empty),
        FullBook::<Volume>::over(&mut held),
        0,
    );
    stays_unopened(
        &rt,
        FullBook::<Volume>::blank(&mut empty),
        SparseBook::<Volume>::blank(&mut slots),
        1,
    );
}
