use crate::passages::{passage, span};
use book::answers::Cause;
use book::interface::Book;
use full_book::lent::FullBook;
use limit_layer::layer::LimitLayer;
use limit_layer::table::LimitTable;
use quantity::direction::Direction;
use quantity::fcr::Volume;
use quantity::interface::Quantity;
use refusals::refusal::Refusal;
use span_moves::spans::{lower_span, move_span, raise_span};
use sparse_book::lent::SparseBook;
use sparse_book::record::Record;
use std::process::Abort;

fn tenths(n: u16) -> Volume {
    Volume::of_row(n)
}

// The provider holds this many tenths in every quarter from the first to the last.
fn holds<B: Book<Q = Volume>>(
    rt: &impl Abort,
    book: &B,
    provider: u8,
    first: u8,
    last: u8,
    up: u16,
) {
    for quarter in first..=last {
        assert_eq!(rt; book.holding(provider, quarter).up(), up);
    }
}

// Each place that the giver frees serves the taker: all of sixteen quarters can move, a part cannot.
#[test]
fn sixteen_full_records_move_whole(rt: HostRuntime) {
    let mut slots: [Option<Record<u16>>; 16] = [None; 16];
    let mut book: SparseBook<Volume> = SparseBook::blank(&mut slots);
    assert_eq!(rt; raise_span(&mut book, span(0, 12, 27), tenths(100)), Ok(()));
    assert_eq!(rt; book.free(), 0);
    assert_eq!(rt;
        move_span(&mut book, passage(0, 1, 12, 27), tenths(50)),
        Err(Refusal::NoFreePlace)
    );
    holds(&rt, &book, 0, 12, 27, 100);
    holds(&rt, &book, 1, 12, 27, 0);
    assert_eq!(rt;
        move_span(&mut book, passage(0, 1, 12, 27), tenths(100)),
        Ok(())
    );
    holds(&rt, &book, 0, 12, 27, 0);
    holds(&rt, &book, 1, 12, 27, 100);
    assert_eq!(rt; book.free(), 0);
}

// What the last quarter lacks keeps the quarters before it unchanged.
fn last_quarter_lacks<B: Book<Q = Volume>>(rt: &impl Abort, book: &mut B) {
    assert_eq!(rt; raise_span(book, span(5, 0, 2), tenths(100)), Ok(()));
    assert_eq!(rt; raise_span(book, span(5, 3, 3), tenths(10)), Ok(()));
    assert_eq!(rt; raise_span(book, span(6, 0, 3), tenths(7)), Ok(()));
    assert_eq!(rt;
        move_span(book, passage(5, 6, 0, 3), tenths(50)),
        Err(Refusal::NoRemainder {
            provider: 5,
            quarter: 3,
        })
    );
    assert_eq!(rt;
        lower_span(book, span(5, 0, 3), tenths(50)),
        Err(Refusal::NoRemainder {
            provider: 5,
            quarter: 3,
        })
    );
    holds(rt, book, 5, 0, 2, 100);
    holds(rt, book, 5, 3, 3, 10);
    holds(rt, book, 6, 0, 3, 7);
    assert_eq!(rt; move_span(book, passage(5, 6, 0, 2), tenths(50)), Ok(()));
    holds(rt, book, 5, 0, 2, 50);
    holds(rt, book, 6, 0, 2, 57);
    holds(rt, book, 6, 3, 3, 7);
}

#[test]
fn a_last_quarter_that_lacks_volume(rt: HostRuntime) {
    let mut rows = [0u16; 3200];
    last_quarter_lacks(&rt, &mut FullBook::<Volume>::blank(&mut rows));
    let mut slots: [Option<Record<u16>>; 8] = [None; 8];
    last_quarter_lacks(&rt, &mut SparseBook::<Volume>::blank(&mut slots));
}

// A sum that does not fit at a later quarter is told before a limit at an earlier one.
#[test]
fn fit_before_limit(rt: HostRuntime) {
    let mut rows = [0u16; 3200];
    let mut below: FullBook<Volume> = FullBook::blank(&mut rows);
    assert_eq!(rt; raise_span(&mut below, span(2, 0, 4), tenths(3000)), Ok(()));
    assert_eq!(rt; raise_span(&mut below, span(3, 4, 4), tenths(9000)), Ok(()));
    let mut limits = LimitTable::new();
    assert!(rt; limits.set(2, Direction::Up, 10000).is_ok());
    assert!(rt; limits.set(3, Direction::Up, 500).is_ok());
    let mut book = LimitLayer::new(below, limits);
    assert_eq!(rt;
        move_span(&mut book, passage(2, 3, 0, 4), tenths(2000)),
        Err(Refusal::SumDoesNotFit {
            provider: 3,
            quarter: 4,
        })
    );
    let cause = Cause::Limit {
        layer: 1,
        direction: Direction::Up,
    };
    assert_eq!(rt;
        move_span(&mut book, passage(2, 3, 1, 3), tenths(2000)),
        Err(Refusal::NotAdmitted {
            provider: 3,
            quarter: 1,
            cause,
        })
    );
    assert_eq!(rt;
        move_span(&mut book, passage(2, 3, 0, 4), tenths(4000)),
        Err(Refusal::NoRemainder {
            provider: 2,
            quarter: 0,
        })
    );
    holds(&rt, &book, 2, 0, 4, 3000);
    holds(&rt, &book, 3, 0, 3, 0);
    holds(&rt, &book, 3, 4, 4, 9000);
    assert_eq!(rt;
        move_span(&mut book, passage(2, 3, 0, 3), tenths(500)),
        Ok(())
    );
    holds(&rt, &book, 2, 0, 3, 2500);
    holds(&rt, &book, 3, 0, 3, 500);
}

// Each refusal is told before those after it.
#[test]
fn order_of_the_others(rt: HostRuntime) {
    let mut rows = [0u16; 3200];
    let mut book: FullBook<Volume> = FullBook::blank(&mut rows);
    assert_eq!(rt;
        move_span(&mut book, passage(32, 32, 5, 4), tenths(1)),
        Err(Refusal::NoSuchProvider)
    );
    assert_eq!(rt;
        move_span(&mut book, passage(0, 32, 0, 100), tenths(1)),
        Err(Refusal::NoSuchProvider)
    );
    assert_eq!(rt;
        move_span(&mut book, passage(1, 1, 5, 4), tenths(1)),
        Err(Refusal::NoSuchSpan)
    );
    assert_eq!(rt;
        move_span(&mut book, passage(1, 1, 0, 100), tenths(1)),
        Err(Refusal::NoSuchSpan)
    );
    assert_eq!(rt;
        move_span(&mut book, passage(1, 1, 0, 99), tenths(1)),
        Err(Refusal::SameProvider)
    );
    assert_eq!(rt;
        move_span(&mut book, passage(1, 2, 0, 99), tenths(1)),
        Err(Refusal::NoRemainder {
            provider: 1,
            quarter: 0,
        })
    );
    assert_eq!(rt;
        raise_span(&mut book, span(32, 5, 4), tenths(1)),
        Err(Refusal::NoSuchProvider)
    );
    assert_eq!(rt;
        raise_span(&mut book, span(31, 5, 4), tenths(1)),
        Err(Refusal::NoSuchSpan)
    );
    assert_eq!(rt;
        raise_span(&mut book, span(31, 0, 100), tenths(1)),
        Err(Refusal::NoSuchSpan)
    );
    assert_eq!(rt; raise_span(&mut book, span(31, 0, 99), tenths(1)), Ok(()));
    holds(&rt, &book, 31, 0, 99, 1);
}

// A place freed at an earlier step serves a later one; a place that is still held does not.
#[test]
fn a_freed_place_serves_later(rt: HostRuntime) {
    let mut slots: [Option<Record<u16>>; 2] = [None; 2];
    let mut book: SparseBook<Volume> = SparseBook::blank(&mut slots);
    assert_eq!(rt; raise_span(&mut book, span(0, 0, 0), tenths(5)), Ok(()));
    assert_eq!(rt; raise_span(&mut book, span(0, 1, 1), tenths(9)), Ok(()));
    assert_eq!(rt;
        move_span(&mut book, passage(0, 1, 0, 1), tenths(5)),
        Err(Refusal::NoFreePlace)
    );
    assert_eq!(rt; book.holding(0, 0).up(), 5);
    assert_eq!(rt; book.holding(0, 1).up(), 9);
    holds(&rt, &book, 1, 0, 1, 0);
    assert_eq!(rt;
        move_span(&mut book, passage(0, 1, 0, 0), tenths(5)),
        Ok(())
    );
    assert_eq!(rt; lower_span(&mut book, span(1, 0, 0), tenths(5)), Ok(()));
    assert_eq!(rt; book.free(), 1);
    assert_eq!(rt;
        move_span(&mut book, passage(0, 2, 1, 1), tenths(4)),
        Ok(())
    );
    assert_eq!(rt; book.holding(0, 1).up(), 5);
    assert_eq!(rt; book.holding(2, 1).up(), 4);
    assert_eq!(rt; book.free(), 0);
}
